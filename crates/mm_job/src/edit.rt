//! The lines of edits, each by itself.
ghost use Rattle.std.specs.Prelude.{◌≡◌, ◌≤◌, ◌∷◌, List, Ok, Err, MatchResult, IfOk, nat_abs};
ghost use Rattle.mm_lines.specs.declared.line.Line.{Line};
ghost use Rattle.mm_job.specs.Edits.{another_weight, light_fields, line_edit, replace_fields, weight_fields};
ghost use Rattle.mm_job.specs.Header.{Session};
ghost use Rattle.mm_tree.specs.ValidTree.{most_weight};

use mm_base::Name;
use mm_job_text::{Limit, Refusal, args, begins, too_long, two};
use mm_lines::{Line, read_i64, read_u32};

/// The greatest weight, and the least one without its sign.
const MAX_WEIGHT: u64 = 1_000_000_000_000;

/// What a `weight` line says.
#[derive(Clone, Copy, Debug)]
pub struct NewWeight {
    /// The element.
    pub name: Name,
    /// Its new weight.
    pub weight: i64,
}

/// What a `replace` line says.
#[derive(Clone, Copy, Debug)]
pub struct Above {
    /// A leaf.
    pub name: Name,
    /// How many steps above it the node is.
    pub up: u32,
}

/// `weight NAME WEIGHT`
#[tactic(auto, unfolding(crate::specs::Edits::weight_fields))]
fn read_weight(line: &Line) -> Result<NewWeight, Refusal>
    ensures { MatchResult result
        (λ w. weight_fields line.now ≡ Ok (w.name, w.weight)) (λ refusal. weight_fields line.now ≡ Err refusal) }
{
    let Some((name, weight)) = two(args(line)) else {
        return Err(Refusal::Syntax(line.number));
    };
    let Some(name) = Name::read(name) else {
        return Err(Refusal::Syntax(line.number));
    };
    match read_i64(weight) {
        Some(weight) => Ok(NewWeight { name, weight }),
        None => Err(Refusal::Syntax(line.number)),
    }
}

/// The same, where the weight is within its limit.
#[tactic(auto, unfolding(crate::specs::Edits::light_fields))]
fn read_light(line: &Line) -> Result<NewWeight, Refusal>
    ensures fields { MatchResult result
        (λ w. light_fields line.now ≡ Ok (w.name, w.weight)) (λ refusal. light_fields line.now ≡ Err refusal) }
    ensures light { IfOk result (λ w. nat_abs w.weight ≤ most_weight) }
{
    let new = read_weight(line)?;
    if new.weight.unsigned_abs() > MAX_WEIGHT {
        return Err(Refusal::Over(Limit::Weight, line.number));
    }
    Ok(new)
}

/// `replace NAME UP`
#[tactic(auto, unfolding(crate::specs::Edits::replace_fields))]
pub fn read_replace(line: &Line) -> Result<Above, Refusal>
    ensures { MatchResult result
        (λ w. replace_fields line.now ≡ Ok (w.name, w.up)) (λ refusal. replace_fields line.now ≡ Err refusal) }
{
    let Some((name, up)) = two(args(line)) else {
        return Err(Refusal::Syntax(line.number));
    };
    let Some(name) = Name::read(name) else {
        return Err(Refusal::Syntax(line.number));
    };
    match read_u32(up) {
        Some(up) => Ok(Above { name, up }),
        None => Err(Refusal::Syntax(line.number)),
    }
}

/// The weight that an item of one line gives, or its refusal.
#[tactic(auto, unfolding(crate::specs::Edits::line_edit, crate::specs::Edits::weight_edit))]
pub fn read_single(line: &Line) -> Result<NewWeight, Refusal>
    ensures edit { MatchResult result
        (λ w. (s : Session) → line_edit s line.now ≡ another_weight s.tree w.name w.weight)
        (λ refusal. (s : Session) → line_edit s line.now ≡ Err refusal) }
    ensures light { IfOk result (λ w. nat_abs w.weight ≤ most_weight) }
{
    if let Some(refusal) = too_long(line) {
        return Err(refusal);
    }
    if !begins(line, b"weight") {
        return Err(Refusal::Syntax(line.number));
    }
    read_light(line)
}
