//! The names of the elements that a text gives.
ghost use Rattle.std.specs.Prelude.{◌≡◌, true};
ghost use Rattle.std.specs.List.{list_all};
ghost use Rattle.mm_base.specs.Names.{is_name};
ghost use Rattle.mm_job_text.specs.Becoming.{Becomes};
ghost use Rattle.mm_job_text.specs.HeaderLines.{elements_line, with_name, with_names};

use crate::arguments::args;
use crate::name_set::NameSet;
use crate::refusal::{Limit, Refusal, Stop};
use mm_base::Name;
use mm_lines::{Line, Tokens};
use std::alloc::Global;

/// Adds a name, where it is new and there are fewer than `most`.
fn add_name(
    alloc: Global,
    most: usize,
    number: u32,
    names: &mut NameSet,
    name: Name,
) -> Result<(), Stop>
    ensures { Becomes result names.new (with_name most number names.old name) }
{
    if names.contains(&name) {
        return Err(Stop::Refused(Refusal::Taken(name)));
    }
    if names.len() >= most {
        return Err(Stop::Refused(Refusal::Over(Limit::Elements, number)));
    }
    names.insert(alloc, name)?;
    Ok(())
}

fn are_names(tokens: Tokens<'_>) -> bool
    ensures { result ≡ list_all is_name tokens.entry }
{
    let mut tokens = tokens;
    'tokens: while let Some(token) = tokens.next() {
        if Name::read(token).is_none() {
            return false;
        }
    }
    true
}

fn add_names(
    alloc: Global,
    most: usize,
    number: u32,
    names: &mut NameSet,
    tokens: Tokens<'_>,
) -> Result<(), Stop>
    requires { list_all is_name tokens ≡ true }
    ensures { Becomes result names.new (with_names most number names.old tokens.entry) }
{
    let mut tokens = tokens;
    'tokens: while let Some(token) = tokens.next() {
        let Some(name) = Name::read(token) else {
            return Err(Stop::Refused(Refusal::Syntax(number)));
        };
        add_name(alloc, most, number, names, name)?;
    }
    Ok(())
}

/// Adds the names of an `elements` line to a text that has at most `most` names: all of them, or none where one is no name, or those
/// before the one that is refused.
#[tactic(auto, unfolding(crate::specs::HeaderLines::elements_line))]
pub fn add_elements(
    alloc: Global,
    most: usize,
    names: &mut NameSet,
    line: &Line,
) -> Result<(), Stop>
    ensures { Becomes result names.new (elements_line most names.old line.now) }
{
    if !are_names(args(line)) {
        return Err(Stop::Refused(Refusal::Syntax(line.number)));
    }
    add_names(alloc, most, line.number, names, args(line))
}
