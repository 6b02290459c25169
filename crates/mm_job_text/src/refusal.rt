//! Why a line, an edit or a text is refused.
ghost use Rattle.std.specs.Prelude.{◌≡◌};
ghost use Rattle.mm_job_text.specs.declared.refusal.Stop.TheVariants.{NoMemory as no_memory, Refused as refused};

use mm_base::{Name, NoMemory};
use mm_formula::Var;

/// What has a limit.
#[derive(Clone, Copy, Debug, PartialEq, Eq)]
pub enum Limit {
    /// The names in the `elements` lines.
    Elements,
    /// The `row` lines.
    Rows,
    /// The `op` lines.
    Operators,
    /// The boundaries of an operator, and its inner dimensions.
    Bounds,
    /// The boundary of a leaf.
    Boundary,
    /// The leaves of a tree.
    Leaves,
    /// The joins above a leaf.
    Depth,
    /// The absolute value of a weight.
    Weight,
    /// The bytes of a formula.
    Formula,
    /// The nodes of a formula.
    Nodes,
    /// The binders over an atom of a formula.
    Scope,
}

/// A refusal, with the number of its line where its words have one.
#[derive(Clone, Copy, Debug, PartialEq, Eq)]
pub enum Refusal {
    /// The text has more bytes than are used.
    TooLong,
    /// The line has more bytes than a line may have.
    LineTooLong(u32),
    /// The line is outside its form, or may not stand at its place.
    Syntax(u32),
    /// There is no field of so many elements.
    Field(u32),
    /// A limit is exceeded.
    Over(Limit, u32),
    /// The rows of the matrix with this number, from 1 to 3, of an operator are dependent.
    Dependent(u32, u8),
    /// A matrix of an operator has the wrong shape.
    Shape(u32),
    /// A name is given twice.
    Taken(Name),
    /// A name names nothing, or no element.
    Unknown(Name),
    /// A join without two trees before it, or an `end` without exactly one.
    Trees(u32),
    /// The boundary that is wanted, and the one of the tree that is there.
    Boundary(u8, u8),
    /// A name is among the given elements or those of the tree, and not among both.
    Elements(Name),
    /// The given row with this number, from 1, is outside the row space of the tree's matrix.
    Given(usize),
    /// The row of the tree's matrix with this number, from 1, is outside the given row space.
    Present(usize),
    /// The text derives no formula.
    Formula,
    /// A variable has no binder.
    Unbound(Var),
    /// The tree is over the limit on sizes.
    States,
    /// A leaf has fewer joins above it than this.
    NoNode(Name, u32),
    /// The text ends too early.
    Unfinished,
    /// What is asked for is not built yet.
    NotBuilt,
}

/// Why a line is not taken.
#[derive(Clone, Copy, Debug, PartialEq, Eq)]
pub enum Stop {
    /// It is refused.
    Refused(Refusal),
    /// Memory ran out.
    NoMemory,
}

impl From<NoMemory> for Stop {
    ghost from_gives = { λ _ stop. stop ≡ no_memory };

    fn from(_: NoMemory) -> Self {
        Stop::NoMemory
    }
}

impl From<Refusal> for Stop {
    ghost from_gives = { λ refusal stop. stop ≡ refused refusal };

    fn from(refusal: Refusal) -> Self {
        Stop::Refused(refusal)
    }
}
