//! The lines of a header that give the format, the field, the elements and the rows.
ghost use Rattle.std.specs.Prelude.{◌≡◌};
ghost use Rattle.mm_job_text.specs.HeaderLines.{field_line, field_of, format_line, tree_line};
ghost use Rattle.std.specs.Prelude.{Ok, true, if◌then◌else◌};

use crate::arguments::{args, begins, is_text, is_word, one};
use crate::format::Format;
use crate::refusal::Refusal;
use mm_field::Field;
use mm_lines::{Line, read_u32};

/// `mso 1` or `mso 2`
#[tactic(auto, unfolding(crate::specs::HeaderLines::format_line))]
pub fn read_format(line: &Line) -> Result<Format, Refusal>
    ensures { result ≡ format_line line.now }
{
    if !begins(line, b"mso") {
        return Err(Refusal::Syntax(line.number));
    }
    let Some(version) = one(args(line)) else {
        return Err(Refusal::Syntax(line.number));
    };
    if is_text(version, b"1") {
        return Ok(Format::One);
    }
    if is_text(version, b"2") {
        return Ok(Format::Two);
    }
    Err(Refusal::Syntax(line.number))
}

/// The field of so many elements.
fn field_of(q: u32) -> Option<Field>
    ensures { result ≡ field_of q }
{
    match q {
        2 => Some(Field::Two),
        3 => Some(Field::Three),
        4 => Some(Field::Four),
        5 => Some(Field::Five),
        _ => None,
    }
}

/// `field Q`
#[tactic(auto, unfolding(crate::specs::HeaderLines::field_line))]
pub fn read_field(line: &Line) -> Result<Field, Refusal>
    ensures { result ≡ field_line line.now }
{
    if !begins(line, b"field") {
        return Err(Refusal::Syntax(line.number));
    }
    let Some(token) = one(args(line)) else {
        return Err(Refusal::Syntax(line.number));
    };
    let Some(q) = read_u32(token) else {
        return Err(Refusal::Syntax(line.number));
    };
    match field_of(q) {
        Some(f) => Ok(f),
        None => Err(Refusal::Field(line.number)),
    }
}

/// `tree`
#[tactic(auto, unfolding(crate::specs::HeaderLines::tree_line))]
pub fn read_tree(line: &Line) -> Result<(), Refusal>
    ensures { result ≡ (tree_line line.now) }
{
    if is_word(line, b"tree") {
        Ok(())
    } else {
        Err(Refusal::Syntax(line.number))
    }
}
