//! What the dependencies of a tree's columns make of given columns over the same elements, from the leaves up.
//!
//! A pair is the boundary digits of a combination of columns whose internal digits are zero, with the same combination of the given
//! columns. A node hands on a few pairs that span all of its pairs. One with zero boundary digits is a fault: a given row with another
//! digit than 0 there is outside the row space of the tree's matrix.

ghost use Rattle.std.specs.Prelude.{◌≡◌, ◌==◌, ◌≤◌, ◌<◌, ◌+◌, ◌^◌, ◌++◌, [], ◌∷◌, length, map, take, drop, IfOk, IfSome, OnOk};
ghost use Rattle.std.specs.List.{list_all, range_with_len};
ghost use Rattle.mm_field.specs.Vectors.{IsVector, AreDigits};
ghost use Rattle.mm_logic.specs.Tree as shapes;
ghost use Rattle.mm_linear.specs.ReducedEchelon.{reduced_basis};
ghost use Rattle.mm_matrix.specs.Columns.{column};
ghost use Rattle.mm_present.specs.Comparing.{first_outside, present_rows};
ghost use Rattle.mm_present.specs.Dependencies.{ArePairs, Walks, candidate, first_nonzero, joined_pairs};
ghost use Rattle.mm_present.specs.Dependencies.{least_place, lesser, tails, with_boundary};
ghost use Rattle.mm_tree.specs.NamedTree.{shape};
ghost use Rattle.mm_tree.specs.Nodes.{named, named_leaf, IsOver};

use crate::join_cache::KnownOperators;
use crate::vectors::digits_of;
use mm_base::NoMemory;
use mm_field::{Field, lanes};
use mm_matrix::{Echelon, Matrix, combination};
use mm_ops::Op;
use mm_space::Vector;
use mm_tree::{Leaf, Node, Tree};
use std::alloc::Global;

/// The number of digits of rows in two parts. No memory holds rows of more digits than a number counts.
fn width(first: usize, second: usize) -> Result<usize, NoMemory>
    ensures { IfOk result (λ cols. cols ≡ first + second) }
{
    first.checked_add(second).ok_or(NoMemory)
}

/// Whether all digits are zero.
pub(crate) fn is_zero(digits: &[u8]) -> bool
    ensures { result ≡ list_all (λ d. d == 0) digits.now }
{
    digits.iter().all(|d| *d == 0)
}

/// The least place with a digit other than 0.
fn first_nonzero(digits: &[u8]) -> Option<usize>
    ensures { result ≡ first_nonzero digits.now }
{
    lanes::first_nonzero(digits)
}

/// The lesser of two places, of which each may be missing.
fn lesser(first: Option<usize>, second: Option<usize>) -> Option<usize>
    ensures { result ≡ lesser first second }
{
    match first {
        None => second,
        Some(i) => match second {
            None => Some(i),
            Some(j) => { if j < i { Some(j) } else { Some(i) } }
        },
    }
}

/// Puts a row after the pairs, unless its t boundary digits are zero: then `least` is made the least place of it and earlier faults.
fn put_pair(
    alloc: Global,
    t: usize,
    row: &[u8],
    pairs: &mut Matrix,
    least: &mut Option<usize>,
) -> Result<(), NoMemory>
    requires vector { IsVector pairs.old.f pairs.old.cols row.now }
    requires boundary { t ≤ pairs.old.cols }
    ensures pairs { OnOk result (pairs.new ≡ record pairs.old { rows = pairs.old.rows ++ with_boundary t (row.now ∷ []) }) }
    ensures least { OnOk result (least.new ≡ least_place least.old (tails t (row.now ∷ []))) }
{
    if is_zero(&row[..t]) {
        *least = lesser(*least, first_nonzero(&row[t..]));
        return Ok(());
    }
    pairs.push_row(alloc, row)
}

/// The same for what is left of a row whose first c digits are zero; no other row counts.
fn put_tail(
    alloc: Global,
    c: usize,
    t: usize,
    row: &[u8],
    pairs: &mut Matrix,
    least: &mut Option<usize>,
) -> Result<(), NoMemory>
    requires vector { IsVector pairs.old.f (c + pairs.old.cols) row.now }
    requires boundary { t ≤ pairs.old.cols }
    ensures pairs { OnOk result (pairs.new ≡ record pairs.old { rows = pairs.old.rows ++ with_boundary t (tails c (row.now ∷ [])) }) }
    ensures least { OnOk result (least.new ≡ least_place least.old (tails t (tails c (row.now ∷ [])))) }
{
    if !is_zero(&row[..c]) {
        return Ok(());
    }
    put_pair(alloc, t, &row[c..], pairs, least)
}

/// The rows of a matrix whose first c digits are zero, without these digits, as pairs of t boundary digits and given digits.
fn pairs_of_tails(
    alloc: Global,
    space: &Matrix,
    c: usize,
    t: usize,
    cols: usize,
    least: &mut Option<usize>,
) -> Result<Matrix, NoMemory>
    requires width { space.now.cols ≡ c + cols }
    requires boundary { t ≤ cols }
    ensures pairs { IfOk result (λ m. m ≡ record { f = space.now.f; cols = cols; rows = with_boundary t (tails c space.now.rows) }) }
    ensures least { OnOk result (least.new ≡ least_place least.old (tails t (tails c space.now.rows))) }
{
    let mut pairs = Matrix::new(alloc, space.field(), cols);
    for i in 0..space.rows() {
        put_tail(alloc, c, t, space.row(i), &mut pairs, least)?;
    }
    Ok(pairs)
}

/// The digits of a row from place t3 on, the first t3, and more digits.
fn with_boundary_last(
    alloc: Global,
    t3: usize,
    row: &[u8],
    more: &[u8],
) -> Result<Vec<u8>, NoMemory>
    requires { t3 ≤ length row.now }
    ensures { IfOk result (λ v. v.items ≡ drop t3 row.now ++ (take t3 row.now ++ more.now)) }
{
    let mut digits = row[t3..].to_vec(alloc)?;
    digits.extend_from_slice(&row[..t3])?;
    digits.extend_from_slice(more)?;
    Ok(digits)
}

/// A pair of a child as a row of a join: its new internal digits, its boundary digits, its given digits.
fn candidate(
    alloc: Global,
    digits: &Matrix,
    t: usize,
    t3: usize,
    row: &[u8],
) -> Result<Vec<u8>, NoMemory>
    requires count { length digits.now.rows ≡ t }
    requires row { t ≤ length row.now }
    requires vector { AreDigits digits.now.f row.now }
    requires boundary { t3 ≤ digits.now.cols }
    ensures { IfOk result (λ v. v.items ≡ candidate digits.now.f digits.now.cols t t3 digits.now.rows row.now) }
{
    let _ = digits.rows();
    let image = combination(alloc, &row[..t], digits)?;
    with_boundary_last(alloc, t3, &image, &row[t..])
}

/// Puts the pairs of a child, as rows of a join, after the candidates.
fn put_candidates(
    alloc: Global,
    digits: &Matrix,
    t: usize,
    t3: usize,
    pairs: &Matrix,
    candidates: &mut Matrix,
) -> Result<(), NoMemory>
    requires count { length digits.now.rows ≡ t }
    requires field { digits.now.f ≡ pairs.now.f }
    requires same { candidates.old.f ≡ pairs.now.f }
    requires boundary { t3 ≤ digits.now.cols }
    requires width { t + candidates.old.cols ≡ digits.now.cols + pairs.now.cols }
    requires room { t ≤ pairs.now.cols }
    ensures { OnOk result (candidates.new ≡ record candidates.old {
      rows = candidates.old.rows ++ map (candidate digits.now.f digits.now.cols t t3 digits.now.rows) pairs.now.rows;
    }) }
{
    let _ = digits.rows();
    for i in 0..pairs.rows() {
        let row = candidate(alloc, digits, t, t3, pairs.row(i))?;
        candidates.push_row(alloc, &row)?;
    }
    Ok(())
}

/// The pairs of a join that its children's make. Its faults and those before are noted.
fn join_pairs(
    alloc: Global,
    op: &Op,
    known: &mut KnownOperators,
    given: usize,
    left: Matrix,
    right: Matrix,
    least: &mut Option<usize>,
) -> Result<Matrix, NoMemory>
    requires left { ArePairs op.now.f op.now.op.t1 given left }
    requires right { ArePairs op.now.f op.now.op.t2 given right }
    ensures pairs { IfOk result (λ m. m ≡ record {
      f = op.now.f;
      cols = op.now.op.t3 + given;
      rows = with_boundary op.now.op.t3 (joined_pairs op.now given left.rows right.rows);
    }) }
    ensures least { OnOk result (least.new ≡ least_place least.old (tails op.now.op.t3 (joined_pairs op.now given left.rows right.rows))) }
{
    let _ = op.field();
    let (c, t3) = (op.c() as usize, op.t3() as usize);
    let cols = width(t3, given)?;
    let digits = known.digits(alloc, op)?;
    let mut candidates = Matrix::new(alloc, op.field(), width(c, cols)?);
    put_candidates(
        alloc,
        &digits.first,
        op.t1() as usize,
        t3,
        &left,
        &mut candidates,
    )?;
    put_candidates(
        alloc,
        &digits.second,
        op.t2() as usize,
        t3,
        &right,
        &mut candidates,
    )?;
    let space = Echelon::of(alloc, &candidates)?.into_matrix();
    pairs_of_tails(alloc, &space, c, t3, cols, least)
}

/// The pairs of a leaf with an element, whose given column is `column`.
fn element_pairs(
    alloc: Global,
    f: Field,
    vec: &Vector,
    column: &[u8],
    least: &mut Option<usize>,
) -> Result<Matrix, NoMemory>
    requires digits { AreDigits f vec.now }
    requires column { AreDigits f column.now }
    ensures pairs { IfOk result (λ m. m ≡ record {
      f = f;
      cols = length vec.now + length column.now;
      rows = with_boundary (length vec.now) ((vec.now ++ column.now) ∷ []);
    }) }
    ensures least { OnOk result (least.new ≡ least_place least.old (tails (length vec.now) ((vec.now ++ column.now) ∷ []))) }
{
    let mut row = digits_of(alloc, vec)?;
    row.extend_from_slice(column)?;
    let mut pairs = Matrix::new(alloc, f, row.len());
    put_pair(alloc, vec.len() as usize, &row, &mut pairs, least)?;
    Ok(pairs)
}

/// The pairs of a leaf. The given columns from `next` on are those of the elements from the leaf on.
fn leaf_pairs(
    alloc: Global,
    f: Field,
    leaf: &Leaf,
    columns: &Matrix,
    next: &mut usize,
    least: &mut Option<usize>,
) -> Result<Matrix, NoMemory>
    requires valid { shapes.IsValid f (shape (named_leaf leaf.now)) }
    requires field { columns.now.f ≡ f }
    requires room { next.old + shapes.size (shape (named_leaf leaf.now)) ≤ length columns.now.rows }
    ensures { Walks f (shape (named_leaf leaf.now)) columns.now next.old next.new least.old least.new result }
{
    let _ = columns.rows();
    match &leaf.item {
        Some(item) => {
            let column = columns.row(*next);
            *next += 1;
            element_pairs(alloc, f, &item.vec, column, least)
        }
        None => {
            let cols = width(leaf.t as usize, columns.cols())?;
            Ok(Matrix::new(alloc, f, cols))
        }
    }
}

/// The pairs of a node. The given columns from `next` on are those of the elements from the node's first on; after the call `next`
/// is past the node's. Operators that are not `known` yet are put there.
pub(crate) fn pairs_of(
    alloc: Global,
    f: Field,
    node: &Node,
    columns: &Matrix,
    next: &mut usize,
    known: &mut KnownOperators,
    least: &mut Option<usize>,
) -> Result<Matrix, NoMemory>
    requires over { IsOver f node.now }
    requires valid { shapes.IsValid f (shape (named node.now)) }
    requires field { columns.now.f ≡ f }
    requires room { next.old + shapes.size (shape (named node.now)) ≤ length columns.now.rows }
    ensures { Walks f (shape (named node.now)) columns.now next.old next.new least.old least.new result }
{
    let _ = columns.rows();
    match node {
        Node::Leaf(leaf) => leaf_pairs(alloc, f, leaf, columns, next, least),
        Node::Join(_, op, left, right) => {
            let first = pairs_of(alloc, f, left, columns, next, known, least)?;
            let second = pairs_of(alloc, f, right, columns, next, known, least)?;
            join_pairs(alloc, op, known, columns.cols(), first, second, least)
        }
    }
}

/// The columns of a matrix, each as a row.
pub(crate) fn columns_of(alloc: Global, m: &Matrix) -> Result<Matrix, NoMemory>
    ensures { IfOk result (λ c. c ≡ record {
      f = m.now.f;
      cols = length m.now.rows;
      rows = map (column m.now.rows) (range_with_len 0 m.now.cols);
    }) }
{
    let mut places = Vec::new(alloc);
    for j in 0..m.cols() {
        places.push(j)?;
    }
    m.columns(alloc, &places)
}

/// Notes the faults among the combinations of the pairs of a whole tree, whose boundary has t digits.
fn note_last_faults(
    alloc: Global,
    pairs: &Matrix,
    t: usize,
    given: usize,
    least: &mut Option<usize>,
) -> Result<(), NoMemory>
    requires { pairs.now.cols ≡ t + given }
    ensures { OnOk result (least.new ≡ least_place least.old (tails t (reduced_basis pairs.now.f pairs.now.cols pairs.now.rows))) }
{
    let space = Echelon::of(alloc, pairs)?.into_matrix();
    pairs_of_tails(alloc, &space, t, 0, given, least)?;
    Ok(())
}

/// The least given row, counted from 0, that is outside the row space of the tree's matrix; None where all are inside.
pub(crate) fn first_given_outside(
    alloc: Global,
    given: &Matrix,
    tree: &Tree,
) -> Result<Option<usize>, NoMemory>
    requires field { given.now.f ≡ tree.now.f }
    requires columns { given.now.cols ≡ shapes.size (shape tree.now.tree) }
    ensures first { IfOk result (λ found. found ≡
        first_outside given.now.f given.now.cols given.now.rows (present_rows tree.now.f tree.now.tree)) }
    ensures small { IfOk result (λ found. IfSome found (λ i. i + 1 < 2 ^ 64)) }
{
    let _ = given.rows();
    let columns = columns_of(alloc, given)?;
    let mut next = 0;
    let mut least = None;
    let pairs = pairs_of(
        alloc,
        tree.field(),
        tree.node(),
        &columns,
        &mut next,
        &mut KnownOperators::new(alloc),
        &mut least,
    )?;
    let t = pairs.cols() - columns.cols();
    note_last_faults(alloc, &pairs, t, columns.cols(), &mut least)?;
    Ok(least)
}
