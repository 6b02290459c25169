//! Numbers as texts, and the names of elements.

ghost use Rattle.std.specs.Prelude.{◌≡◌, ◌++◌, OnOk, IfOk};
ghost use Rattle.std.specs.Fmt.{decimal, signed_decimal};
ghost use Rattle.mm_sample.specs.SampleTree.{element_name};

use mm_base::{Name, NoMemory, Text};
use std::alloc::Global;

/// Appends a number in decimal digits.
pub(crate) fn append_number(alloc: Global, text: &mut Text, n: u64) -> Result<(), NoMemory>
    ensures { OnOk result (text.new ≡ text.old ++ decimal n) }
{
    let digits = format!(in alloc; "{n}")?;
    text.append(alloc, digits.as_bytes())
}

/// Appends a weight in decimal digits.
pub(crate) fn append_weight(alloc: Global, text: &mut Text, weight: i64) -> Result<(), NoMemory>
    ensures { OnOk result (text.new ≡ text.old ++ signed_decimal weight) }
{
    let digits = format!(in alloc; "{weight}")?;
    text.append(alloc, digits.as_bytes())
}

/// Appends the name of element i.
pub(crate) fn append_element(alloc: Global, text: &mut Text, i: u32) -> Result<(), NoMemory>
    ensures { OnOk result (text.new ≡ text.old ++ element_name i) }
{
    text.append(alloc, b"e")?;
    append_number(alloc, text, u64::from(i))
}

/// The name of element i.
#[tactic(auto, using(crate::proofs::NameLemmas::element_is_name))]
pub(crate) fn element(alloc: Global, i: u32) -> Result<Name, NoMemory>
    ensures { IfOk result (λ name. name ≡ element_name i) }
{
    let mut text = Text::new(alloc);
    append_element(alloc, &mut text, i)?;
    let Some(name) = Name::read(text.bytes()) else {
        unreachable!();
    };
    Ok(name)
}
