//! The lines of the text of a decomposition that no header has, each by itself.

ghost use Rattle.std.specs.Prelude.{◌≡◌, ◌≤◌, nat_abs, IfOk};
ghost use Rattle.mm_tree.specs.ValidTree.{most_weight};
ghost use Rattle.mm_decomp.specs.BuildLines.{build_line, is_shape_part, leaf_fields, shape_line};

use mm_base::Name;
use mm_job_text::{Limit, Refusal, args, begins, is_text, is_word, one, two};
use mm_lines::{Line, read_i64};

/// The greatest weight.
const MAX_WEIGHT: u64 = 1_000_000_000_000;

/// What the line of a leaf says.
#[derive(Clone, Copy, Debug)]
pub(crate) struct LeafLine {
    /// The name of the leaf.
    pub(crate) name: Name,
    /// Its weight, from -10^12 to 10^12.
    pub(crate) weight: i64,
}

/// `mso-build 1`
#[tactic(auto, unfolding(crate::specs::BuildLines::build_line))]
pub(crate) fn read_build_line(line: &Line) -> Result<(), Refusal>
    ensures { result ≡ build_line line.now }
{
    if !begins(line, b"mso-build") {
        return Err(Refusal::Syntax(line.number));
    }
    let Some(version) = one(args(line)) else {
        return Err(Refusal::Syntax(line.number));
    };
    if !is_text(version, b"1") {
        return Err(Refusal::Syntax(line.number));
    }
    Ok(())
}

/// `shape`
#[tactic(auto, unfolding(crate::specs::BuildLines::shape_line))]
pub(crate) fn read_shape_line(line: &Line) -> Result<(), Refusal>
    ensures { result ≡ shape_line line.now }
{
    if is_word(line, b"shape") {
        Ok(())
    } else {
        Err(Refusal::Syntax(line.number))
    }
}

/// `leaf NAME WEIGHT`
#[tactic(auto, unfolding(crate::specs::BuildLines::leaf_fields))]
pub(crate) fn read_leaf(line: &Line) -> Result<LeafLine, Refusal>
    ensures fields { result ≡ leaf_fields line.now }
    ensures light { IfOk result (λ leaf. nat_abs leaf.weight ≤ most_weight) }
{
    let Some((name, weight)) = two(args(line)) else {
        return Err(Refusal::Syntax(line.number));
    };
    let Some(name) = Name::read(name) else {
        return Err(Refusal::Syntax(line.number));
    };
    let Some(weight) = read_i64(weight) else {
        return Err(Refusal::Syntax(line.number));
    };
    if weight.unsigned_abs() > MAX_WEIGHT {
        return Err(Refusal::Over(Limit::Weight, line.number));
    }
    Ok(LeafLine { name, weight })
}

/// Whether the line is one of a shape, its `end` apart.
pub(crate) fn is_shape_part(line: &Line) -> bool
    ensures { result ≡ is_shape_part line.now }
{
    begins(line, b"leaf") || begins(line, b"join")
}
