//! Shapes from their steps.

ghost use Rattle.std.specs.Prelude.{◌≡◌, ◌==◌, ◌≤◌, ◌++◌, [], ◌∷◌, length, nat_abs, OnOk, OnErr, IfOk, IfErr};
ghost use Rattle.mm_tree.specs.ValidTree.{most_weight};
ghost use Rattle.mm_decomp.specs.Shapes.{after_steps};
ghost use Rattle.mm_decomp.specs.ShapeBuilding.{Answers, AnswersExactly, leaf_fault, join_fault};
ghost use Rattle.mm_decomp.specs.declared.shape_builder.ShapeFault.TheVariants.{TooFew};
ghost use Rattle.mm_decomp.specs.declared.shape.Step.TheVariants as steps;

use crate::shape::{MAX_DEPTH, MAX_LEAVES, Shape, Step};
use indexmap::IndexSet;
use mm_base::Name;
use std::alloc::Global;
use std::marker::Model;
use std::mem;
use thiserror::Error;

/// Why a builder refuses a call.
#[derive(Clone, Copy, Debug, PartialEq, Eq, Error)]
pub enum ShapeFault {
    /// A leaf of this name is there.
    #[error("a name is taken")]
    NameTaken(Name),
    /// 4096 leaves are there.
    #[error("there are too many leaves")]
    TooManyLeaves,
    /// Fewer than two shapes are there for a join, or not exactly one at the end.
    #[error("there are too few shapes")]
    TooFew,
    /// The joined shape would be deeper than 1023.
    #[error("the shape is too deep")]
    TooDeep,
    /// Memory ran out.
    #[error("memory ran out")]
    NoMemory,
}

/// Shapes that are not joined yet. Contracts see the steps that were given. Each leaf makes the room for its own step and for one join.
#[derive(Drop)]
pub struct ShapeBuilder {
    alloc: Global,
    steps: Vec<Step>,
    depths: Vec<u32>,
    names: IndexSet<Name>,
}

impl Model for ShapeBuilder {
    ghost use Rattle.std.specs.Prelude.{List};
    ghost use Rattle.mm_decomp.specs.declared.shape.Step.{Step};
    ghost use Rattle.mm_decomp.specs.ShapeBuilding.{IsKept};

    ghost Value = { List Step };

    ghost view = { λ b. b.steps.items };

    ghost invariant = { IsKept };
}

impl ShapeBuilder {
    /// A builder without shapes. It takes no memory yet.
    pub fn new(alloc: Global) -> ShapeBuilder
        ensures { result ≡ [] }
    {
        ShapeBuilder {
            alloc,
            steps: Vec::new(alloc),
            depths: Vec::new(alloc),
            names: IndexSet::new(alloc),
        }
    }

    /// Adds a leaf. A builder that refuses is as before.
    pub fn leaf(&mut self, _alloc: Global, name: Name, weight: i64) -> Result<(), ShapeFault>
        requires { nat_abs weight ≤ most_weight }
        ensures answers { Answers result (leaf_fault name self.old) }
        ensures ok { OnOk result (self.new ≡ self.old ++ steps.Leaf name weight ∷ []) }
        ensures err { OnErr result (self.new ≡ self.old) }
    {
        if self.names.contains(&name) {
            return Err(ShapeFault::NameTaken(name));
        }
        if self.names.len() >= MAX_LEAVES {
            return Err(ShapeFault::TooManyLeaves);
        }
        if self.steps.reserve(self.depths.len() + 2).is_err() || self.depths.reserve(1).is_err() {
            return Err(ShapeFault::NoMemory);
        }
        if self.names.insert(name).is_err() {
            return Err(ShapeFault::NoMemory);
        }
        self.steps.push(Step::Leaf(name, weight)).unwrap();
        self.depths.push(0).unwrap();
        Ok(())
    }

    /// Joins the last two shapes: the last one becomes the right child. It takes no memory. A builder that refuses is as before.
    pub fn join(&mut self) -> Result<(), ShapeFault>
        ensures answers { AnswersExactly result (join_fault self.old) }
        ensures ok { OnOk result (self.new ≡ self.old ++ steps.Join ∷ []) }
        ensures err { OnErr result (self.new ≡ self.old) }
    {
        let n = self.depths.len();
        if n < 2 {
            return Err(ShapeFault::TooFew);
        }
        let depth = self.depths[n - 2].max(self.depths[n - 1]);
        if depth >= MAX_DEPTH {
            return Err(ShapeFault::TooDeep);
        }
        self.depths.truncate(n - 2);
        self.depths.push(depth + 1).unwrap();
        self.steps.push(Step::Join).unwrap();
        Ok(())
    }

    /// Whether there is exactly one shape.
    pub(crate) fn is_one(&self) -> bool
        ensures { result ≡ (length (after_steps [] self.now) == 1) }
    {
        self.depths.len() == 1
    }

    /// The shape, where there is exactly one. After that the builder is as new; a builder that refuses is as before. It takes no memory.
    pub fn finish(&mut self) -> Result<Shape, ShapeFault>
        ensures ok { IfOk result (λ shape. (shape ≡ self.old) × (length (after_steps [] self.old) ≡ 1) × (self.new ≡ [])) }
        ensures err { IfErr result (λ e. (e ≡ TooFew) × (self.new ≡ self.old) × (length (after_steps [] self.old) ≡ 1 → ⊥)) }
    {
        if self.depths.len() != 1 {
            return Err(ShapeFault::TooFew);
        }
        self.depths.clear();
        self.names.clear();
        let steps = mem::replace(&mut self.steps, Vec::new(self.alloc));
        Ok(Shape::of(steps))
    }
}
