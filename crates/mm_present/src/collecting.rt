//! The rows of a tree's matrix, from the leaves up.

ghost use Rattle.std.specs.Prelude.{◌≡◌, ◌≤◌, ◌<◌, ◌+◌, ◌^◌, ℕ, ◌++◌, IfOk, OnOk, map, reverse, length};
ghost use Rattle.std.specs.List.{range_with_len};
ghost use Rattle.mm_logic.specs.Tree as shapes;
ghost use Rattle.mm_tree.specs.NamedTree.{shape};
ghost use Rattle.mm_tree.specs.Nodes.{named, named_leaf, IsOver};
ghost use Rattle.mm_field.specs.Vectors.{AreDigits};
ghost use Rattle.mm_logic.specs.Operator.{row_length};
ghost use Rattle.mm_present.specs.Joining.{ArePart, IsSide, boundary_matrix, placed_rows, join_row, joined_row, widened};

use crate::join_cache::KnownOperators;
use crate::join_rows::{Side, join_row};
use mm_base::NoMemory;
use mm_field::Field;
use mm_matrix::Matrix;
use mm_ops::Op;
use mm_space::Vector;
use mm_tree::{Leaf, Node};
use std::alloc::Global;

/// The rows of one column.
fn column(alloc: Global, f: Field, v: &Vector) -> Result<Matrix, NoMemory>
    requires { AreDigits f v.now }
    ensures { IfOk result (λ m. m ≡ boundary_matrix f (shapes.Tree.Elem v.now)) }
{
    let mut rows = Matrix::new(alloc, f, 1);
    for k in 0..v.len() {
        rows.push_row(alloc, &[v.at(k)])?;
    }
    Ok(rows)
}

/// So many rows without a column.
fn no_columns(alloc: Global, f: Field, t: u8) -> Result<Matrix, NoMemory>
    ensures { IfOk result (λ m. m ≡ boundary_matrix f (shapes.Tree.Void t)) }
{
    let mut rows = Matrix::new(alloc, f, 0);
    for _ in 0..t {
        rows.push_row(alloc, &[])?;
    }
    Ok(rows)
}

/// The boundary rows of a leaf.
pub(crate) fn leaf_rows(alloc: Global, f: Field, leaf: &Leaf) -> Result<Matrix, NoMemory>
    requires { shapes.IsValid f (shape (named_leaf leaf.now)) }
    ensures { IfOk result (λ m. m ≡ boundary_matrix f (shape (named_leaf leaf.now))) }
{
    match &leaf.item {
        Some(item) => column(alloc, f, &item.vec),
        None => no_columns(alloc, f, leaf.t),
    }
}

/// Rows t3 to t3 + c - 1 of a join, the last first, each among all elements, put after those of `internal`.
fn push_internal(
    alloc: Global,
    op: &Op,
    left: &Side,
    right: &Side,
    before: usize,
    after: usize,
    internal: &mut Vec<Vec<u8>>,
) -> Result<(), NoMemory>
    requires left { IsSide op.now.f (row_length op.now.op) left.now }
    requires right { IsSide op.now.f (row_length op.now.op) right.now }
    requires room { before + (left.now.rows.cols + right.now.rows.cols) + after < 2 ^ 32 }
    ensures { OnOk result (map (λ r. r.items) internal.new.items ≡ map (λ r. r.items) internal.old.items
        ++ reverse (map (widened before after) (map (join_row left.now right.now) (range_with_len op.now.op.t3 op.now.op.c)))) }
{
    let t3 = op.t3() as usize;
    for k in (0..op.c() as usize).rev() {
        internal.push(join_row(alloc, left, right, t3 + k, before, after)?)?;
    }
    Ok(())
}

/// The first t3 rows of a join.
fn boundary_of_join(alloc: Global, op: &Op, left: &Side, right: &Side) -> Result<Matrix, NoMemory>
    requires left { IsSide op.now.f (row_length op.now.op) left.now }
    requires right { IsSide op.now.f (row_length op.now.op) right.now }
    requires room { left.now.rows.cols + right.now.rows.cols < 2 ^ 32 }
    ensures { IfOk result (λ m. m ≡ record {
      f = op.now.f;
      cols = left.now.rows.cols + right.now.rows.cols;
      rows = map (join_row left.now right.now) (range_with_len 0 op.now.op.t3);
    }) }
{
    let mut rows = Matrix::new(alloc, op.field(), left.rows.cols() + right.rows.cols());
    for k in 0..op.t3() {
        let row = join_row(alloc, left, right, k as usize, 0, 0)?;
        rows.push_row(alloc, &row)?;
    }
    Ok(rows)
}

/// The boundary rows of a join, from those of its children; its own internal rows are put after those of `internal`.
fn join_rows(
    alloc: Global,
    op: &Op,
    known: &mut KnownOperators,
    left: Matrix,
    right: Matrix,
    before: usize,
    after: usize,
    internal: &mut Vec<Vec<u8>>,
) -> Result<Matrix, NoMemory>
    requires left { ArePart op.now.f op.now.op.t1 left }
    requires right { ArePart op.now.f op.now.op.t2 right }
    requires room { before + (left.cols + right.cols) + after < 2 ^ 32 }
    ensures boundary { IfOk result (λ m. m ≡ record {
      f = op.now.f;
      cols = left.cols + right.cols;
      rows = map (joined_row op.now left right) (range_with_len 0 op.now.op.t3);
    }) }
    ensures internal { OnOk result (map (λ r. r.items) internal.new.items ≡ map (λ r. r.items) internal.old.items
        ++ reverse (map (widened before after) (map (joined_row op.now left right) (range_with_len op.now.op.t3 op.now.op.c)))) }
{
    let _ = op.field();
    let digits = known.digits(alloc, op)?;
    let left = Side::new(&digits.first, left);
    let right = Side::new(&digits.second, right);
    push_internal(alloc, op, &left, &right, before, after, internal)?;
    boundary_of_join(alloc, op, &left, &right)
}

/// The boundary rows of a node, over its own elements. Its internal rows are put after those of `internal`, the last first, each over
/// all `total` elements, of which `after` come after the node's own. Operators that are not `known` yet are put there.
pub(crate) fn collect(
    alloc: Global,
    f: Field,
    node: &Node,
    total: usize,
    after: usize,
    known: &mut KnownOperators,
    internal: &mut Vec<Vec<u8>>,
) -> Result<Matrix, NoMemory>
    requires over { IsOver f node.now }
    requires valid { shapes.IsValid f (shape (named node.now)) }
    requires few { total < 2 ^ 32 }
    requires room { shapes.size (shape (named node.now)) + after ≤ total }
    ensures boundary { IfOk result (λ m. m ≡ boundary_matrix f (shape (named node.now))) }
    ensures internal { OnOk result ((before : ℕ) → before + (shapes.size (shape (named node.now)) + after) ≡ total →
        map (λ r. r.items) internal.new.items ≡
        map (λ r. r.items) internal.old.items ++ reverse (placed_rows f before after (shape (named node.now)))) }
{
    match node {
        Node::Leaf(leaf) => leaf_rows(alloc, f, leaf),
        Node::Join(_, op, left, right) => {
            let second = collect(alloc, f, right, total, after, known, internal)?;
            let beyond = after + second.cols();
            let first = collect(alloc, f, left, total, beyond, known, internal)?;
            let before = total - beyond - first.cols();
            join_rows(alloc, op, known, first, second, before, after, internal)
        }
    }
}
