//! Small trees, and their matrices by columns.

ghost use Rattle.std.specs.Prelude.{◌≡◌, ◌<◌, ◌≤◌, ◌+◌, ◌^◌, ◌++◌, All, map, length, take, IfOk};
ghost use Rattle.mm_field.specs.Digits.{order};
ghost use Rattle.mm_field.specs.Vectors as vectors;
ghost use Rattle.mm_field.specs.Vectors.{AreDigits, IsVector, AreVectors};
ghost use Rattle.mm_linear.specs.Coordinates as coordinates_spec;
ghost use Rattle.mm_logic.specs.Operator.{IsValidOp};
ghost use Rattle.mm_logic.specs.Tree.{IsValid};
ghost use Rattle.mm_logic.specs.Tree.{boundary as boundary_of};
ghost use Rattle.mm_logic.specs.PresentMatrix as matrix;
ghost use Rattle.mm_reference_meaning.specs.Rows.{rows_of};
ghost use Rattle.mm_reference_meaning.specs.Trees.{AreChildColumns, tree_of, op_of, joined_column, joined_all, columns_of_join};

use crate::combinations::{coordinates, in_span};
use mm_field::{Field, lanes};
use std::alloc::{AllocError, Global};

/// An operator: its boundaries, its c, and its three boundary matrices by rows.
#[derive(Drop)]
pub struct Op {
    pub t1: usize,
    pub t2: usize,
    pub t3: usize,
    pub c: usize,
    pub g1: Vec<Vec<u8>>,
    pub g2: Vec<Vec<u8>>,
    pub g3: Vec<Vec<u8>>,
}

/// A tree without names and weights.
#[derive(Drop)]
pub enum Tree {
    /// An element with its boundary vector.
    Elem(Vec<u8>),
    /// A boundary without an element.
    Void(usize),
    Join(Op, Box<Tree>, Box<Tree>),
}

/// How many digits the boundary of a tree has.
pub fn boundary(tree: &Tree) -> usize
    ensures { result ≡ boundary_of (tree_of tree.now) }
{
    match tree {
        Tree::Elem(vector) => vector.len(),
        Tree::Void(t) => *t,
        Tree::Join(op, _, _) => op.t3,
    }
}

/// How many internal rows the matrix of a tree has.
pub fn internal(tree: &Tree) -> usize
    requires { matrix.internal (tree_of tree.now) < 2 ^ 32 }
    ensures { result ≡ matrix.internal (tree_of tree.now) }
{
    match tree {
        Tree::Elem(_) | Tree::Void(_) => 0,
        Tree::Join(op, left, right) => op.c + (internal(left) + internal(right)),
    }
}

/// Puts n zeros after what is there.
pub fn push_zeros(out: &mut Vec<u8>, n: usize) -> Result<(), AllocError>
    ensures { IfOk result (λ _. out.new.items ≡ out.old.items ++ vectors.zeros n) }
{
    for _ in 0..n {
        out.push(0)?;
    }
    Ok(())
}

/// The zero vector of n digits.
fn zero_vector(alloc: Global, n: usize) -> Result<Vec<u8>, AllocError>
    ensures { IfOk result (λ v. v.items ≡ vectors.zeros n) }
{
    vec![in alloc; 0; n]
}

/// The vector of r digits with 1 at place k and 0 elsewhere.
fn unit(alloc: Global, r: usize, k: usize) -> Result<Vec<u8>, AllocError>
    requires { k < r }
    ensures { IfOk result (λ v. v.items ≡ coordinates_spec.unit r k) }
{
    let mut digits = zero_vector(alloc, r)?;
    digits[k] = 1;
    Ok(digits)
}

/// The sum and c times the row.
fn with_multiple(f: Field, mut sum: Vec<u8>, c: u8, row: &[u8]) -> Vec<u8>
    requires same_length { length row.now ≡ length sum.items }
    requires factor { c < order f }
    requires digits_row { AreDigits f row.now }
    requires digits_sum { AreDigits f sum.items }
    ensures { result.items ≡ vectors.vector_sum f (vectors.multiple f c row.now) sum.items }
{
    lanes::axpy(f, c, row, &mut sum);
    sum
}

/// The sum of each row, of r digits, times its coefficient.
fn combination(
    alloc: Global,
    f: Field,
    r: usize,
    rows: &[Vec<u8>],
    coefficients: &[u8],
) -> Result<Vec<u8>, AllocError>
    requires rows { AreVectors f r (rows_of rows.now) }
    requires digits { AreDigits f coefficients.now }
    ensures { IfOk result (λ v. v.items ≡ vectors.combination f r coefficients.now (rows_of rows.now)) }
{
    match rows {
        [] => zero_vector(alloc, r),
        [row, rows @ ..] => match coefficients {
            [] => zero_vector(alloc, r),
            [c, coefficients @ ..] => {
                let sum = combination(alloc, f, r, rows, coefficients)?;
                Ok(with_multiple(f, sum, *c, row))
            }
        },
    }
}

/// The rows, of r digits, cut off after n digits.
fn cut(alloc: Global, rows: &[Vec<u8>], n: usize) -> Result<Vec<Vec<u8>>, AllocError>
    requires { All (λ v. n ≤ length v) (rows_of rows.now) }
    ensures { IfOk result (λ v. rows_of v.items ≡ map (take n) (rows_of rows.now)) }
{
    let mut short = Vec::new(alloc);
    for row in rows {
        short.push(row[..n].to_vec(alloc)?)?;
    }
    Ok(short)
}

/// Whether k is a pivot column of the rows of r digits.
fn is_pivot(
    alloc: Global,
    f: Field,
    r: usize,
    rows: &[Vec<u8>],
    k: usize,
) -> Result<bool, AllocError>
    requires rows { AreVectors f r (rows_of rows.now) }
    requires place { k < r }
    ensures { IfOk result (λ b. b ≡ coordinates_spec.is_pivot f (rows_of rows.now) k) }
{
    let short = cut(alloc, rows, k + 1)?;
    let mut first = zero_vector(alloc, k)?;
    first.push(1)?;
    Ok(in_span(alloc, f, &short, &first)?)
}

/// The rows, of r digits, and then the unit vectors at their free columns.
fn completed(
    alloc: Global,
    f: Field,
    r: usize,
    rows: &[Vec<u8>],
) -> Result<Vec<Vec<u8>>, AllocError>
    requires { AreVectors f r (rows_of rows.now) }
    ensures { IfOk result (λ v. rows_of v.items ≡ coordinates_spec.completed f r (rows_of rows.now)) }
{
    let mut basis = cut(alloc, rows, r)?;
    for k in 0..r {
        if !is_pivot(alloc, f, r, rows, k)? {
            basis.push(unit(alloc, r, k)?)?;
        }
    }
    Ok(basis)
}

/// A column of a child, with t boundary digits, as a column of the join, where the internal digits of the child have zeros before
/// and after them.
fn joined(
    alloc: Global,
    f: Field,
    basis: &[Vec<u8>],
    g: &[Vec<u8>],
    v: &[u8],
    t: usize,
    before: usize,
    after: usize,
) -> Result<Vec<u8>, AllocError>
    requires basis { AreVectors f (length basis.now) (rows_of basis.now) }
    requires rows { AreVectors f (length basis.now) (rows_of g.now) }
    requires boundary { t ≤ length v.now }
    requires digits { AreDigits f v.now }
    ensures { IfOk result (λ u. u.items ≡ joined_column f (length basis.now) (rows_of basis.now) (rows_of g.now) t before after v.now) }
{
    let x = combination(alloc, f, basis.len(), g, &v[..t])?;
    let mut column = coordinates(alloc, f, basis, &x)?;
    push_zeros(&mut column, before)?;
    column.extend_from_slice(&v[t..])?;
    push_zeros(&mut column, after)?;
    Ok(column)
}

/// Puts the columns of a child, as columns of the join, after what is there.
fn push_joined(
    alloc: Global,
    f: Field,
    basis: &[Vec<u8>],
    g: &[Vec<u8>],
    columns: &[Vec<u8>],
    t: usize,
    before: usize,
    after: usize,
    out: &mut Vec<Vec<u8>>,
) -> Result<(), AllocError>
    requires basis { AreVectors f (length basis.now) (rows_of basis.now) }
    requires rows { AreVectors f (length basis.now) (rows_of g.now) }
    requires columns { AreChildColumns f t (rows_of columns.now) }
    ensures { IfOk result (λ _. rows_of out.new.items ≡ rows_of out.old.items ++ joined_all f basis.now g.now t before after columns.now) }
{
    for column in columns {
        out.push(joined(alloc, f, basis, g, column, t, before, after)?)?;
    }
    Ok(())
}

/// The columns of a join, from those of its children.
fn join_columns(
    alloc: Global,
    f: Field,
    op: &Op,
    left: &[Vec<u8>],
    right: &[Vec<u8>],
    left_internal: usize,
    right_internal: usize,
) -> Result<Vec<Vec<u8>>, AllocError>
    requires operator { IsValidOp f (op_of op.now) }
    requires left { AreVectors f (op.now.t1 + left_internal) (rows_of left.now) }
    requires right { AreVectors f (op.now.t2 + right_internal) (rows_of right.now) }
    ensures { IfOk result (λ v. rows_of v.items ≡ columns_of_join f op.now left_internal right_internal left.now right.now) }
{
    let basis = completed(alloc, f, op.t3 + op.c, &op.g3)?;
    let mut all = Vec::new(alloc);
    push_joined(
        alloc,
        f,
        &basis,
        &op.g1,
        left,
        op.t1,
        0,
        right_internal,
        &mut all,
    )?;
    push_joined(
        alloc,
        f,
        &basis,
        &op.g2,
        right,
        op.t2,
        left_internal,
        0,
        &mut all,
    )?;
    Ok(all)
}

/// The columns of the matrix of a tree.
pub fn columns(alloc: Global, f: Field, tree: &Tree) -> Result<Vec<Vec<u8>>, AllocError>
    requires valid { IsValid f (tree_of tree.now) }
    requires small { matrix.internal (tree_of tree.now) < 2 ^ 32 }
    ensures { IfOk result (λ v. rows_of v.items ≡ matrix.columns f (tree_of tree.now)) }
{
    match tree {
        Tree::Elem(vector) => {
            let mut one = Vec::new(alloc);
            one.push(vector.to_vec(alloc)?)?;
            Ok(one)
        }
        Tree::Void(_) => Ok(Vec::new(alloc)),
        Tree::Join(op, left, right) => {
            let left_columns = columns(alloc, f, left)?;
            let right_columns = columns(alloc, f, right)?;
            Ok(join_columns(
                alloc,
                f,
                op,
                &left_columns,
                &right_columns,
                internal(left),
                internal(right),
            )?)
        }
    }
}
