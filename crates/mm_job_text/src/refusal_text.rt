//! The words of a refusal.
ghost use Rattle.std.specs.Prelude.{◌≡◌, ◌++◌, IfOk, OnOk};
ghost use Rattle.std.specs.Fmt.{decimal};
ghost use Rattle.mm_job_text.specs.Words.{limit_word, words};

use crate::refusal::{Limit, Refusal};
use mm_base::{NoMemory, Text};
use std::alloc::Global;

fn append_number(alloc: Global, text: &mut Text, n: u64) -> Result<(), NoMemory>
    ensures { OnOk result (text.new ≡ text.old ++ decimal n) }
{
    let digits = format!(in alloc; "{n}")?;
    text.append(alloc, digits.as_bytes())
}

fn limit_word(what: Limit) -> &'static [u8]
    ensures { result.now ≡ limit_word what }
{
    match what {
        Limit::Elements => b"elements",
        Limit::Rows => b"rows",
        Limit::Operators => b"operators",
        Limit::Bounds => b"bounds",
        Limit::Boundary => b"boundary",
        Limit::Leaves => b"leaves",
        Limit::Depth => b"depth",
        Limit::Weight => b"weight",
        Limit::Formula => b"formula",
        Limit::Nodes => b"nodes",
        Limit::Scope => b"scope",
    }
}

/// A word alone.
fn alone(alloc: Global, word: &[u8]) -> Result<Text, NoMemory>
    ensures { IfOk result (λ text. text ≡ word.now) }
{
    let mut text = Text::new(alloc);
    text.append(alloc, word)?;
    Ok(text)
}

/// A word and a number.
fn numbered(alloc: Global, word: &[u8], n: u64) -> Result<Text, NoMemory>
    ensures { IfOk result (λ text. text ≡ word.now ++ decimal n) }
{
    let mut text = alone(alloc, word)?;
    append_number(alloc, &mut text, n)?;
    Ok(text)
}

/// A word and a name.
fn named(alloc: Global, word: &[u8], name: &[u8]) -> Result<Text, NoMemory>
    ensures { IfOk result (λ text. text ≡ word.now ++ name.now) }
{
    let mut text = alone(alloc, word)?;
    text.append(alloc, name)?;
    Ok(text)
}

/// The words of a refusal, as they stand after `refused `.
#[tactic(auto, unfolding(crate::specs::Words::words))]
pub fn words(alloc: Global, refusal: &Refusal) -> Result<Text, NoMemory>
    ensures { IfOk result (λ text. text ≡ words refusal.now) }
{
    match refusal {
        Refusal::TooLong => alone(alloc, b"too-long"),
        Refusal::LineTooLong(n) => numbered(alloc, b"line-too-long ", u64::from(*n)),
        Refusal::Syntax(n) => numbered(alloc, b"syntax ", u64::from(*n)),
        Refusal::Field(n) => numbered(alloc, b"field ", u64::from(*n)),
        Refusal::Over(what, n) => {
            let mut text = alone(alloc, b"limit ")?;
            text.append(alloc, limit_word(*what))?;
            text.append(alloc, b" ")?;
            append_number(alloc, &mut text, u64::from(*n))?;
            Ok(text)
        }
        Refusal::Dependent(n, k) => {
            let mut text = numbered(alloc, b"operator ", u64::from(*n))?;
            text.append(alloc, b" dependent ")?;
            append_number(alloc, &mut text, u64::from(*k))?;
            Ok(text)
        }
        Refusal::Shape(n) => {
            let mut text = numbered(alloc, b"operator ", u64::from(*n))?;
            text.append(alloc, b" shape")?;
            Ok(text)
        }
        Refusal::Taken(name) => {
            let mut text = named(alloc, b"name ", name.bytes())?;
            text.append(alloc, b" taken")?;
            Ok(text)
        }
        Refusal::Unknown(name) => named(alloc, b"unknown ", name.bytes()),
        Refusal::Trees(n) => numbered(alloc, b"tree ", u64::from(*n)),
        Refusal::Boundary(want, have) => {
            let mut text = numbered(alloc, b"boundary ", u64::from(*want))?;
            text.append(alloc, b" ")?;
            append_number(alloc, &mut text, u64::from(*have))?;
            Ok(text)
        }
        Refusal::Elements(name) => named(alloc, b"elements ", name.bytes()),
        Refusal::Given(i) => numbered(alloc, b"rowspace given ", *i as u64),
        Refusal::Present(j) => numbered(alloc, b"rowspace tree ", *j as u64),
        Refusal::Formula => alone(alloc, b"formula"),
        Refusal::Unbound(v) => named(alloc, b"unbound ", v.bytes()),
        Refusal::States => alone(alloc, b"states"),
        Refusal::NoNode(name, k) => {
            let mut text = named(alloc, b"no-node ", name.bytes())?;
            text.append(alloc, b" ")?;
            append_number(alloc, &mut text, u64::from(*k))?;
            Ok(text)
        }
        Refusal::Unfinished => alone(alloc, b"unfinished"),
        Refusal::NotBuilt => alone(alloc, b"not-built"),
    }
}
