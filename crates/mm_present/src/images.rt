//! What the rows of a tree's matrix make of given columns over the same elements, from the leaves up.
//!
//! Where the columns are those of a basis of all vectors that are orthogonal to some rows, a row is in their space exactly where its
//! image, its combination of the columns, is zero. No row of the tree's matrix is made.

ghost use Rattle.std.specs.Prelude.{◌≡◌, ◌≤◌, ◌+◌, ◌&&◌, true, None, map, take, drop, length, IfOk, OnOk};
ghost use Rattle.mm_field.specs.Vectors.{times_matrix};
ghost use Rattle.mm_logic.specs.Operator.{row_length};
ghost use Rattle.mm_logic.specs.PresentMatrix.{boundary_rows};
ghost use Rattle.mm_logic.specs.Tree as shapes;
ghost use Rattle.mm_present.specs.Comparing.{first_outside, present_rows};
ghost use Rattle.mm_present.specs.Images.{are_zero, images, ImagesOf, joined_images};
ghost use Rattle.mm_present.specs.Joining.{internal_rows};
ghost use Rattle.mm_tree.specs.NamedTree.{shape};
ghost use Rattle.mm_tree.specs.Nodes.{named, named_leaf, IsOver};

use crate::collecting::leaf_rows;
use crate::dependencies::{columns_of, is_zero};
use crate::join_cache::KnownOperators;
use mm_base::NoMemory;
use mm_field::Field;
use mm_matrix::{Echelon, Matrix};
use mm_ops::Op;
use mm_tree::{Leaf, Node, Tree};
use std::alloc::Global;

/// Whether all rows from place `start` on are zero.
fn are_zero_from(rows: &Matrix, start: usize) -> bool
    requires { start ≤ length rows.now.rows }
    ensures { result ≡ are_zero (drop start rows.now.rows) }
{
    for i in start..rows.rows() {
        if !is_zero(rows.row(i)) {
            return false;
        }
    }
    true
}

/// The rows from place `start` on, so many of them.
fn rows_from(alloc: Global, rows: &Matrix, start: usize, count: usize) -> Result<Matrix, NoMemory>
    requires { start + count ≤ length rows.now.rows }
    ensures { IfOk result (λ m. m ≡ record rows.now { rows = take count (drop start rows.now.rows) }) }
{
    let _ = rows.rows();
    let mut out = Matrix::new(alloc, rows.field(), rows.cols());
    for i in 0..count {
        out.push_row(alloc, rows.row(start + i))?;
    }
    Ok(out)
}

/// The images of the first rows of a join, those of its boundary and its new internal ones, from the images of its children's
/// boundary rows.
fn images_at_join(
    alloc: Global,
    op: &Op,
    known: &mut KnownOperators,
    left: Matrix,
    right: &Matrix,
) -> Result<Matrix, NoMemory>
    requires left_field { left.f ≡ op.now.f }
    requires right_field { right.now.f ≡ op.now.f }
    requires cols { right.now.cols ≡ left.cols }
    requires left { length left.rows ≡ op.now.op.t1 }
    requires right { length right.now.rows ≡ op.now.op.t2 }
    ensures { IfOk result (λ m. m ≡ record {
      f = op.now.f;
      cols = left.cols;
      rows = joined_images op.now left.cols left.rows right.now.rows;
    }) }
{
    let digits = known.digits(alloc, op)?;
    let space = op.t3() as usize + op.c() as usize;
    let none = Matrix::new(alloc, op.field(), space);
    let first = none.stacked(alloc, &digits.first)?;
    let both = first.stacked(alloc, &digits.second)?;
    let coefficients = columns_of(alloc, &both)?;
    let images = left.stacked(alloc, right)?;
    coefficients.times(alloc, &images)
}

/// The images of the boundary rows of a join. `zero` stays true where those of its new internal rows are zero.
fn boundary_images(
    alloc: Global,
    op: &Op,
    known: &mut KnownOperators,
    left: Matrix,
    right: &Matrix,
    zero: &mut bool,
) -> Result<Matrix, NoMemory>
    requires left_field { left.f ≡ op.now.f }
    requires right_field { right.now.f ≡ op.now.f }
    requires cols { right.now.cols ≡ left.cols }
    requires left { length left.rows ≡ op.now.op.t1 }
    requires right { length right.now.rows ≡ op.now.op.t2 }
    ensures images { IfOk result (λ m. m ≡ record {
      f = op.now.f;
      cols = left.cols;
      rows = take op.now.op.t3 (joined_images op.now left.cols left.rows right.now.rows);
    }) }
    ensures zero { OnOk result (zero.new ≡ (zero.old
        && are_zero (drop op.now.op.t3 (joined_images op.now left.cols left.rows right.now.rows)))) }
{
    let _ = op.field();
    let images = images_at_join(alloc, op, known, left, right)?;
    let t3 = op.t3() as usize;
    *zero = *zero && are_zero_from(&images, t3);
    rows_from(alloc, &images, 0, t3)
}

/// The images of the boundary rows of a leaf. The given columns from `next` on are those of the elements from the leaf on.
fn leaf_images(
    alloc: Global,
    f: Field,
    leaf: &Leaf,
    columns: &Matrix,
    next: &mut usize,
) -> Result<Matrix, NoMemory>
    requires valid { shapes.IsValid f (shape (named_leaf leaf.now)) }
    requires field { columns.now.f ≡ f }
    requires room { next.old + shapes.size (shape (named_leaf leaf.now)) ≤ length columns.now.rows }
    ensures images { IfOk result (λ m. m ≡ record {
      f = f;
      cols = columns.now.cols;
      rows = images f columns.now.cols (take (shapes.size (shape (named_leaf leaf.now))) (drop next.old columns.now.rows))
          (boundary_rows f (shape (named_leaf leaf.now)));
    }) }
    ensures next { OnOk result (next.new ≡ next.old + shapes.size (shape (named_leaf leaf.now))) }
{
    let _ = columns.rows();
    let rows = leaf_rows(alloc, f, leaf)?;
    let own = rows_from(alloc, columns, *next, rows.cols())?;
    *next += rows.cols();
    rows.times(alloc, &own)
}

/// The images of the boundary rows of a node. The given columns from `next` on are those of the elements from the node's first on;
/// after the call `next` is past the node's. `zero` stays true where the images of the node's internal rows are zero. Operators that
/// are not `known` yet are put there.
fn images_of(
    alloc: Global,
    f: Field,
    node: &Node,
    columns: &Matrix,
    next: &mut usize,
    known: &mut KnownOperators,
    zero: &mut bool,
) -> Result<Matrix, NoMemory>
    requires over { IsOver f node.now }
    requires valid { shapes.IsValid f (shape (named node.now)) }
    requires field { columns.now.f ≡ f }
    requires room { next.old + shapes.size (shape (named node.now)) ≤ length columns.now.rows }
    ensures { ImagesOf f (shape (named node.now)) columns.now next.old next.new zero.old zero.new result }
{
    let _ = columns.rows();
    match node {
        Node::Leaf(leaf) => leaf_images(alloc, f, leaf, columns, next),
        Node::Join(_, op, left, right) => {
            let first = images_of(alloc, f, left, columns, next, known, zero)?;
            let second = images_of(alloc, f, right, columns, next, known, zero)?;
            boundary_images(alloc, op, known, first, &second, zero)
        }
    }
}

/// Whether all rows of the tree's matrix make zero of each vector that is orthogonal to the given rows: then they are in their space.
fn are_present_inside(alloc: Global, given: &Matrix, tree: &Tree) -> Result<bool, NoMemory>
    requires field { given.now.f ≡ tree.now.f }
    requires columns { given.now.cols ≡ shapes.size (shape tree.now.tree) }
    ensures { IfOk result (λ b. b ≡ true →
        None ≡ first_outside given.now.f given.now.cols (present_rows tree.now.f tree.now.tree) given.now.rows) }
{
    let _ = given.rows();
    let space = Echelon::of(alloc, given)?;
    let kernel = space.kernel_vectors(alloc)?;
    let _ = kernel.rows();
    let columns = columns_of(alloc, &kernel)?;
    let mut next = 0;
    let mut zero = true;
    let images = images_of(
        alloc,
        tree.field(),
        tree.node(),
        &columns,
        &mut next,
        &mut KnownOperators::new(alloc),
        &mut zero,
    )?;
    Ok(zero && are_zero_from(&images, 0))
}

/// How many internal rows the matrix of a node has, as far as a number counts.
fn count_internal(node: &Node) -> usize {
    match node {
        Node::Leaf(_) => 0,
        Node::Join(_, op, left, right) => {
            let below = count_internal(left).saturating_add(count_internal(right));
            below.saturating_add(op.c() as usize)
        }
    }
}

/// Whether all rows of the tree's matrix are seen to be in the space of the given rows. It is tried only where the tree's matrix has
/// more than twice as many rows as columns: a smaller one is soon made, and the vectors that are orthogonal to the given rows may
/// take more memory.
pub(crate) fn are_seen_inside(alloc: Global, given: &Matrix, tree: &Tree) -> Result<bool, NoMemory>
    requires field { given.now.f ≡ tree.now.f }
    requires columns { given.now.cols ≡ shapes.size (shape tree.now.tree) }
    ensures { IfOk result (λ b. b ≡ true →
        None ≡ first_outside given.now.f given.now.cols (present_rows tree.now.f tree.now.tree) given.now.rows) }
{
    if count_internal(tree.node()) / 2 <= given.cols() {
        return Ok(false);
    }
    are_present_inside(alloc, given, tree)
}
