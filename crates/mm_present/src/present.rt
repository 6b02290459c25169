//! The matrix of a tree.

ghost use Rattle.std.specs.Prelude.{◌≡◌, ◌++◌, IfOk, map, reverse};
ghost use Rattle.mm_field.specs.Vectors.{AreVectors};
ghost use Rattle.mm_logic.specs.Tree as shapes;
ghost use Rattle.mm_tree.specs.NamedTree.{shape, element_names};
ghost use Rattle.mm_present.specs.Comparing.{present_rows};

use crate::collecting::collect;
use crate::join_cache::KnownOperators;
use mm_base::{NameList, NoMemory};
use mm_matrix::Matrix;
use mm_tree::Tree;
use std::alloc::Global;

/// A matrix with a name for each of its columns, in their order.
#[derive(Drop)]
pub struct Named {
    /// The names of the columns.
    pub names: NameList,
    /// The rows, with one digit for each name.
    pub rows: Matrix,
}

/// Moves the rows after those of the matrix, the last first.
fn stack(alloc: Global, mut matrix: Matrix, mut rows: Vec<Vec<u8>>) -> Result<Matrix, NoMemory>
    requires { AreVectors matrix.f matrix.cols (map (λ r. r.items) rows.items) }
    ensures { IfOk result (λ m. m ≡ record matrix { rows = matrix.rows ++ reverse (map (λ r. r.items) rows.items) }) }
{
    for _ in 0..rows.len() {
        if let Some(row) = rows.pop() {
            matrix.push_row(alloc, &row)?;
        }
    }
    Ok(matrix)
}

/// The matrix of the tree: its boundary rows and then its internal rows, over its elements in leaf order.
pub fn matrix_of(alloc: Global, tree: &Tree) -> Result<Named, NoMemory>
    ensures names { IfOk result (λ n. n.names ≡ element_names tree.now.tree) }
    ensures rows { IfOk result (λ n. n.rows ≡ record {
      f = tree.now.f;
      cols = shapes.size (shape tree.now.tree);
      rows = present_rows tree.now.f tree.now.tree;
    }) }
{
    let names = tree.elements(alloc)?;
    let mut internal = Vec::new(alloc);
    let boundary = collect(
        alloc,
        tree.field(),
        tree.node(),
        names.len(),
        0,
        &mut KnownOperators::new(alloc),
        &mut internal,
    )?;
    let rows = stack(alloc, boundary, internal)?;
    Ok(Named { names, rows })
}
