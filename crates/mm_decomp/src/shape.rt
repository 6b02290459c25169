//! Shapes: decompositions by their leaves and joins.

ghost use Rattle.std.specs.Prelude.{◌≡◌};
ghost use Rattle.mm_decomp.specs.Shapes.{IsShape};

use mm_base::Name;
use std::marker::Model;

/// The most leaves of a shape.
pub(crate) const MAX_LEAVES: usize = 4096;

/// The most joins above a leaf.
pub(crate) const MAX_DEPTH: u32 = 1023;

/// A step of a shape.
#[derive(Clone, Copy, Debug, PartialEq, Eq)]
pub enum Step {
    /// A leaf with its name and weight.
    Leaf(Name, i64),
    /// The join of the last two trees; the last one becomes the right child.
    Join,
}

/// A binary tree over named elements with weights. Contracts see it as its steps: the leaves and joins in the order in which they
/// were given.
#[derive(Drop)]
pub struct Shape {
    steps: Vec<Step>,
}

impl Model for Shape {
    ghost use Rattle.std.specs.Prelude.{List};
    ghost use Rattle.mm_decomp.specs.declared.shape.Step.{Step};

    ghost Value = { List Step };

    ghost use Rattle.mm_decomp.specs.Shapes.{IsShape};

    ghost view = { λ s. s.steps.items };

    ghost invariant = { λ s. IsShape s.steps.items };
}

impl Shape {
    /// The shape of steps that make one.
    pub(crate) fn of(steps: Vec<Step>) -> Shape
        requires { IsShape steps.items }
        ensures { result ≡ steps.items }
    {
        Shape { steps }
    }

    /// The steps, in the order in which they were given.
    pub fn steps(&self) -> &[Step]
        ensures steps { result.now ≡ self.now }
        ensures shape { IsShape self.now }
    {
        &self.steps
    }
}
