//! The columns of the leaves of a shape, and their dependencies.

ghost use Rattle.std.specs.Prelude.{◌≡◌, ℕ, true, List, [], ◌∷◌, ◌++◌, length, map, IfOk, OnOk, All};
ghost use Rattle.std.specs.List.{IsDistinct};
ghost use Rattle.std.specs.Str.{bytes_eq};
ghost use Rattle.mm_tree.specs.NamedTree.{is_one_of};
ghost use Rattle.mm_decomp.specs.Building.{AreLeaves, given_of};
ghost use Rattle.mm_decomp.specs.Forms.{IsBasisOfDependencies};
ghost use Rattle.mm_decomp.specs.Shapes.{leaf_names};
ghost use Rattle.mm_decomp.specs.Spaces.{column_of, place_in};

use crate::Step;
use crate::operator::transposed;
use indexmap::IndexSet;
use mm_base::{Name, NameList, NoMemory};
use mm_matrix::{Echelon, Matrix};
use std::alloc::Global;

/// The set of different names, in their order.
pub(crate) fn set_of(alloc: Global, names: &NameList) -> Result<IndexSet<Name>, NoMemory>
    requires { IsDistinct bytes_eq names.now }
    ensures { IfOk result (λ set. set.keys ≡ names.now) }
{
    let mut set = IndexSet::new(alloc);
    for k in 0..names.len() {
        if set.insert(names.at(k)).is_err() {
            return Err(NoMemory);
        }
    }
    Ok(set)
}

/// Puts the place of a leaf's name in the set after the others; a join has none.
fn push_place(set: &IndexSet<Name>, step: &Step, places: &mut Vec<usize>) -> Result<(), NoMemory>
    requires { All (λ name. is_one_of name set.now.keys ≡ true) (leaf_names (step.now ∷ [])) }
    ensures { OnOk result (places.new.items ≡ places.old.items ++ map (place_in set.now.keys) (leaf_names (step.now ∷ []))) }
{
    match step {
        Step::Leaf(name, _) => {
            places.push(set.get_index_of(name).unwrap())?;
            Ok(())
        }
        Step::Join => Ok(()),
    }
}

/// The places of the leaves' names in the set, in the order of the leaves.
fn places_of(alloc: Global, set: &IndexSet<Name>, steps: &[Step]) -> Result<Vec<usize>, NoMemory>
    requires { All (λ name. is_one_of name set.now.keys ≡ true) (leaf_names steps.now) }
    ensures { IfOk result (λ places. places.items ≡ map (place_in set.now.keys) (leaf_names steps.now)) }
{
    let mut places = Vec::new(alloc);
    for i in 0..steps.len() {
        push_place(set, &steps[i], &mut places)?;
    }
    Ok(places)
}

/// The columns of the leaves, in their order.
pub(crate) fn leaf_columns(
    alloc: Global,
    names: &NameList,
    rows: &Matrix,
    steps: &[Step],
) -> Result<Matrix, NoMemory>
    requires { AreLeaves names.now rows.now steps.now }
    ensures { IfOk result (λ m. m ≡ record {
      f = rows.now.f;
      cols = length rows.now.rows;
      rows = map (column_of (given_of names.now rows.now)) (leaf_names steps.now);
    }) }
{
    let set = set_of(alloc, names)?;
    let places = places_of(alloc, &set, steps)?;
    rows.columns(alloc, &places)
}

/// For each column a vector: a list of coefficients is a dependency of the columns exactly where it is the list of their products with
/// some vector.
pub(crate) fn dependencies(alloc: Global, columns: &Matrix) -> Result<Matrix, NoMemory>
    ensures { IfOk result (λ m. IsBasisOfDependencies columns.now m) }
{
    let _ = columns.rows();
    let given = transposed(alloc, columns)?;
    let space = Echelon::of(alloc, &given)?;
    let null = space.kernel_vectors(alloc)?;
    let _ = null.rows();
    transposed(alloc, &null)
}
