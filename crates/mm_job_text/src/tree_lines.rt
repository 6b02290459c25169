//! The lines of a tree, each by itself.
ghost use Rattle.std.specs.Prelude.{◌≡◌};
ghost use Rattle.mm_job_text.specs.TreeLines.{elem_fields, is_tree_part, join_fields, void_fields};

use crate::arguments::{args, begins, one, three, two};
use crate::refusal::{Limit, Refusal};
use mm_base::Name;
use mm_field::Field;
use mm_lines::{Line, read_i64, read_u32};
use mm_space::Vector;

/// The most digits of a leaf's boundary.
const MAX_BOUNDARY: u8 = 6;

/// The greatest weight.
const MAX_WEIGHT: u64 = 1_000_000_000_000;

/// What the line of an element says.
#[derive(Clone, Copy, Debug)]
pub struct ElementLine {
    /// The element's name.
    pub name: Name,
    /// Its boundary vector, of at most 6 digits.
    pub vec: Vector,
    /// Its weight, from -10^12 to 10^12.
    pub weight: i64,
}

/// What the line of a leaf without an element says.
#[derive(Clone, Copy, Debug)]
pub struct VoidLine {
    /// The leaf's name.
    pub name: Name,
    /// How many digits its boundary has, at most 6.
    pub t: u8,
}

/// `elem NAME VECTOR WEIGHT`
#[tactic(auto, unfolding(crate::specs::TreeLines::elem_fields))]
pub fn read_element(f: Field, line: &Line) -> Result<ElementLine, Refusal>
    ensures { result ≡ elem_fields f line.now }
{
    let Some((name, vec, weight)) = three(args(line)) else {
        return Err(Refusal::Syntax(line.number));
    };
    let Some(name) = Name::read(name) else {
        return Err(Refusal::Syntax(line.number));
    };
    let Some(vec) = Vector::read(f, vec) else {
        return Err(Refusal::Syntax(line.number));
    };
    let Some(weight) = read_i64(weight) else {
        return Err(Refusal::Syntax(line.number));
    };
    if vec.len() > MAX_BOUNDARY {
        return Err(Refusal::Over(Limit::Boundary, line.number));
    }
    if weight.unsigned_abs() > MAX_WEIGHT {
        return Err(Refusal::Over(Limit::Weight, line.number));
    }
    Ok(ElementLine { name, vec, weight })
}

/// `void NAME T`
#[tactic(auto, unfolding(crate::specs::TreeLines::void_fields))]
pub fn read_void(line: &Line) -> Result<VoidLine, Refusal>
    ensures { result ≡ void_fields line.now }
{
    let Some((name, t)) = two(args(line)) else {
        return Err(Refusal::Syntax(line.number));
    };
    let Some(name) = Name::read(name) else {
        return Err(Refusal::Syntax(line.number));
    };
    let Some(t) = read_u32(t) else {
        return Err(Refusal::Syntax(line.number));
    };
    if t > u32::from(MAX_BOUNDARY) {
        return Err(Refusal::Over(Limit::Boundary, line.number));
    }
    Ok(VoidLine { name, t: t as u8 })
}

/// `join NAME`
#[tactic(auto, unfolding(crate::specs::TreeLines::join_fields))]
pub fn read_join(line: &Line) -> Result<Name, Refusal>
    ensures { result ≡ join_fields line.now }
{
    let Some(name) = one(args(line)) else {
        return Err(Refusal::Syntax(line.number));
    };
    match Name::read(name) {
        Some(name) => Ok(name),
        None => Err(Refusal::Syntax(line.number)),
    }
}

/// Whether the line is one of a tree, its `end` apart.
pub fn is_tree_part(line: &Line) -> bool
    ensures { result ≡ is_tree_part line.now }
{
    begins(line, b"elem") || begins(line, b"void") || begins(line, b"join")
}
