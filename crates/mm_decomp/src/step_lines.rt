//! The steps of a shape from the lines that give them.

ghost use Rattle.std.specs.Prelude.{◌≡◌, ◌++◌, ◌∷◌, [], length, IfOk, OnOk};
ghost use Rattle.mm_job_text.specs.Becoming.{Becomes};
ghost use Rattle.mm_decomp.specs.BuildLines.{end_line, join_line, leaf_line, shape_part};
ghost use Rattle.mm_decomp.specs.Shapes.{after_steps};
ghost use Rattle.mm_decomp.specs.BuildStates.{step_lines, stop_of};

use crate::build_lines::{LeafLine, read_leaf};
use crate::shape_builder::{ShapeBuilder, ShapeFault};
use mm_base::NoMemory;
use mm_job_text::{Limit, Refusal, Stop, begins, is_word};
use mm_lines::Line;
use std::alloc::Global;

/// Steps, and the number of each one's line.
#[derive(Drop)]
pub(crate) struct Steps {
    pub(crate) builder: ShapeBuilder,
    pub(crate) numbers: Vec<u32>,
}

/// Why the line with this number is not taken.
fn stop_of(number: u32, fault: ShapeFault) -> Stop
    ensures { result ≡ stop_of number fault }
{
    match fault {
        ShapeFault::NameTaken(name) => Stop::Refused(Refusal::Taken(name)),
        ShapeFault::TooManyLeaves => Stop::Refused(Refusal::Over(Limit::Leaves, number)),
        ShapeFault::TooFew => Stop::Refused(Refusal::Trees(number)),
        ShapeFault::TooDeep => Stop::Refused(Refusal::Over(Limit::Depth, number)),
        ShapeFault::NoMemory => Stop::NoMemory,
    }
}

/// Adds a number at the end.
fn push_number(numbers: &mut Vec<u32>, number: u32) -> Result<(), NoMemory>
    ensures { OnOk result (numbers.new.items ≡ numbers.old.items ++ number ∷ []) }
{
    numbers.push(number)?;
    Ok(())
}

impl Steps {
    /// No steps yet. They take no memory yet.
    pub(crate) fn new(alloc: Global) -> Steps
        ensures builder { result.builder ≡ [] }
        ensures numbers { result.numbers.items ≡ [] }
    {
        Steps {
            builder: ShapeBuilder::new(alloc),
            numbers: Vec::new(alloc),
        }
    }

    /// Takes the line of a leaf.
    #[tactic(auto, using(crate::proofs::StepLineLemmas::leaf_unread))]
    fn take_leaf(&mut self, alloc: Global, line: &Line) -> Result<(), Stop>
        ensures { Becomes result (step_lines self.new) (leaf_line (step_lines self.old) line.now) }
    {
        let LeafLine { name, weight } = read_leaf(line)?;
        if let Err(fault) = self.builder.leaf(alloc, name, weight) {
            return Err(stop_of(line.number, fault));
        }
        Ok(push_number(&mut self.numbers, line.number)?)
    }

    /// Takes the line of a join.
    fn take_join(&mut self, line: &Line) -> Result<(), Stop>
        ensures { Becomes result (step_lines self.new) (join_line (step_lines self.old) line.now) }
    {
        if !is_word(line, b"join") {
            return Err(Stop::Refused(Refusal::Syntax(line.number)));
        }
        if let Err(fault) = self.builder.join() {
            return Err(stop_of(line.number, fault));
        }
        Ok(push_number(&mut self.numbers, line.number)?)
    }

    /// Takes a line of a shape that is not its `end`.
    pub(crate) fn take(&mut self, alloc: Global, line: &Line) -> Result<(), Stop>
        ensures { Becomes result (step_lines self.new) (shape_part (step_lines self.old) line.now) }
    {
        if begins(line, b"leaf") {
            self.take_leaf(alloc, line)
        } else {
            self.take_join(line)
        }
    }

    /// Takes the `end` of a shape.
    #[tactic(auto, unfolding(crate::specs::BuildLines::end_line))]
    pub(crate) fn end(&self, line: &Line) -> Result<(), Refusal>
        ensures line { result ≡ end_line (step_lines self.now) line.now }
        ensures one { IfOk result (λ u. length (after_steps [] self.now.builder) ≡ 1) }
    {
        if !is_word(line, b"end") {
            return Err(Refusal::Syntax(line.number));
        }
        if !self.builder.is_one() {
            return Err(Refusal::Trees(line.number));
        }
        Ok(())
    }
}
