//! The edits of a sample.

ghost use Rattle.std.specs.Prelude.{◌≡◌, ◌≤◌, ◌++◌, OnOk};
ghost use Rattle.mm_field.specs.Digits.{order};
ghost use Rattle.mm_sample.specs.Draws.{after};
ghost use Rattle.mm_sample.specs.SampleText.{after_edit, edit_lines, edits, replace_lines, weight_lines};
ghost use Rattle.mm_tree.specs.TreeText.{text_of_lines};

use crate::draws::Draws;
use crate::numbers::{append_weight, element};
use mm_base::{Name, NoMemory, Text};
use mm_field::Field;
use std::alloc::Global;

/// As many edits as there are elements.
pub(crate) fn append_edits(
    alloc: Global,
    text: &mut Text,
    f: Field,
    n: u32,
    draws: Draws,
) -> Result<(), NoMemory>
    requires some { 1 ≤ n }
    requires few { n ≤ 200 }
    ensures { OnOk result (text.new ≡ text.old ++ text_of_lines (edits (order f) n draws.x n)) }
{
    let mut draws = draws;
    for _ in 0..n {
        append_edit(alloc, text, f, n, &mut draws)?;
    }
    Ok(())
}

/// Draws an edit of one of n elements.
#[tactic(auto, unfolding(crate::specs::SampleText::edit_lines, crate::specs::SampleText::after_edit))]
fn append_edit(
    alloc: Global,
    text: &mut Text,
    f: Field,
    n: u32,
    draws: &mut Draws,
) -> Result<(), NoMemory>
    requires some { 1 ≤ n }
    requires few { n ≤ 200 }
    ensures text { OnOk result (text.new ≡ text.old ++ text_of_lines (edit_lines (order f) n draws.old.x)) }
    ensures draws { OnOk result (draws.new.x ≡ after_edit draws.old.x) }
{
    let name = element(alloc, 1 + draws.below(n))?;
    if draws.below(2) == 0 {
        append_weight_line(alloc, text, &name, draws)
    } else {
        append_replace_lines(alloc, text, &name, f, draws)
    }
}

/// `weight NAME WEIGHT`
fn append_weight_line(
    alloc: Global,
    text: &mut Text,
    name: &Name,
    draws: &mut Draws,
) -> Result<(), NoMemory>
    ensures text { OnOk result (text.new ≡ text.old ++ text_of_lines (weight_lines name.now draws.old.x)) }
    ensures draws { OnOk result (draws.new.x ≡ after 1 draws.old.x) }
{
    text.append(alloc, b"weight ")?;
    text.append(alloc, name.bytes())?;
    text.append(alloc, b" ")?;
    append_weight(alloc, text, draws.weight())?;
    text.append(alloc, b"\n")
}

/// `replace NAME 0`, `elem NAME DIGITS WEIGHT` and `end`.
fn append_replace_lines(
    alloc: Global,
    text: &mut Text,
    name: &Name,
    f: Field,
    draws: &mut Draws,
) -> Result<(), NoMemory>
    ensures text { OnOk result (text.new ≡ text.old ++ text_of_lines (replace_lines (order f) name.now draws.old.x)) }
    ensures draws { OnOk result (draws.new.x ≡ after 3 draws.old.x) }
{
    let digits = draws.digits(f);
    text.append(alloc, b"replace ")?;
    text.append(alloc, name.bytes())?;
    text.append(alloc, b" 0\nelem ")?;
    text.append(alloc, name.bytes())?;
    text.append(
        alloc,
        &[b' ', b'0' + digits.at(0), b'0' + digits.at(1), b' '],
    )?;
    append_weight(alloc, text, draws.weight())?;
    text.append(alloc, b"\nend\n")
}
