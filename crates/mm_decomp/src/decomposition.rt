//! What the text of a decomposition gives.

ghost use Rattle.std.specs.Prelude.{◌≡◌, ◌++◌, ◌∷◌, [], length, slice_index, IfOk, OnOk};
ghost use Rattle.std.specs.List.{IsDistinct};
ghost use Rattle.std.specs.Option.{option_or};
ghost use Rattle.std.specs.Str.{bytes_eq};
ghost use Rattle.mm_present.specs.Comparing.{first_missing};
ghost use Rattle.mm_decomp.specs.BuildTexts.{ComparesNames};
ghost use Rattle.mm_decomp.specs.Shapes.{leaf_names};

use crate::columns::set_of;
use crate::{Shape, Step};
use mm_base::{Name, NameList, NoMemory};
use mm_job_text::{Refusal, Stop};
use mm_matrix::Matrix;
use mm_present::first_missing;
use std::alloc::Global;
use std::marker::Model;

/// The numbers of the lines of a shape's steps.
#[derive(Drop)]
pub struct LineNumbers {
    pub(crate) numbers: Vec<u32>,
}

impl Model for LineNumbers {
    ghost use Rattle.std.specs.Prelude.{List, ℕ};

    ghost Value = { List ℕ };

    ghost view = { λ l. l.numbers.items };
}

/// Names and rows, and a shape over the names, as a text gives them.
#[derive(Drop)]
pub struct BuildText {
    /// The names of the columns.
    pub names: NameList,
    /// The rows.
    pub rows: Matrix,
    /// The shape.
    pub shape: Shape,
    pub(crate) lines: LineNumbers,
}

impl BuildText {
    /// The number of the line of a step, counted from 0.
    pub fn line_of(&self, step: u32) -> u32
        ensures { result ≡ slice_index self.now.lines step }
    {
        match self.lines.numbers.get(step as usize) {
            Some(number) => *number,
            None => 0,
        }
    }

    /// Compares the names with those of the leaves.
    pub(crate) fn compare_names(&self, alloc: Global) -> Result<(), Stop>
        requires different { IsDistinct bytes_eq self.now.names }
        requires columns { self.now.rows.cols ≡ length self.now.names }
        ensures { ComparesNames self.now result }
    {
        match missing_name(alloc, &self.names, &self.shape)? {
            Some(name) => Err(Stop::Refused(Refusal::Elements(name))),
            None => Ok(()),
        }
    }
}

/// Puts the name of a leaf after the others; a join has none.
fn push_leaf(alloc: Global, step: &Step, names: &mut NameList) -> Result<(), NoMemory>
    ensures { OnOk result (names.new ≡ names.old ++ leaf_names (step.now ∷ [])) }
{
    match step {
        Step::Leaf(name, _) => names.push(alloc, *name),
        Step::Join => Ok(()),
    }
}

/// The names of the leaves, in their order.
fn leaves_of(alloc: Global, steps: &[Step]) -> Result<NameList, NoMemory>
    ensures { IfOk result (λ names. names ≡ leaf_names steps.now) }
{
    let mut names = NameList::new(alloc);
    for i in 0..steps.len() {
        push_leaf(alloc, &steps[i], &mut names)?;
    }
    Ok(names)
}

/// The first name that no leaf has, else the first leaf that has none of the names.
fn missing_name(alloc: Global, names: &NameList, shape: &Shape) -> Result<Option<Name>, NoMemory>
    requires { IsDistinct bytes_eq names.now }
    ensures first { IfOk result (λ found.
        found ≡ option_or (first_missing names.now (leaf_names shape.now)) (first_missing (leaf_names shape.now) names.now)) }
    ensures different { IfOk result (λ found. IsDistinct bytes_eq (leaf_names shape.now)) }
{
    let leaves = leaves_of(alloc, shape.steps())?;
    let given_set = set_of(alloc, names)?;
    let leaf_set = set_of(alloc, &leaves)?;
    match first_missing(names, &leaf_set) {
        Some(name) => Ok(Some(name)),
        None => Ok(first_missing(&leaves, &given_set)),
    }
}
