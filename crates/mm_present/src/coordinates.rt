//! The boundary digits and the internal digits of the vectors of a join: their coordinates in the basis of the rows of G3 and the unit
//! vectors at its free columns.

ghost use Rattle.std.specs.Prelude.{◌≡◌, ◌<◌, ◌≤◌, ◌+◌, ◌++◌, ◌↔◌, ℕ, true, IfOk, length, map, drop, slice_index, All, IsTrue, Contains};
ghost use Rattle.mm_field.specs.Vectors.{IsVector, AreVectors};
ghost use Rattle.mm_linear.specs.Coordinates.{is_pivot, free_columns};
ghost use Rattle.mm_logic.specs.Operator.{IsValidOp, row_length};
ghost use Rattle.mm_logic.specs.PresentMatrix.{column_digits};
ghost use Rattle.mm_present.specs.Bases.{IsBasisOf, augmented};
ghost use Rattle.mm_logic_laws.specs.MatrixLaws.{digits_at_join};

use crate::vectors::{digits_of, negative_unit};
use mm_base::NoMemory;
use mm_field::Field;
use mm_matrix::{Echelon, Matrix};
use mm_ops::Op;
use mm_space::{Gen, Vector};
use std::alloc::Global;

/// What the coordinates in the space of a join are found by: the rows of G3 beside the negative unit matrix, reduced, and the free
/// columns of G3.
#[derive(Drop)]
pub(crate) struct Basis {
    pub(crate) reduced: Echelon,
    pub(crate) free: Vec<usize>,
}

/// The rows of g, of r digits, beside the negative unit matrix.
fn augmented(alloc: Global, f: Field, r: usize, g: &Gen) -> Result<Matrix, NoMemory>
    requires small { r ≤ 18 }
    requires rows { AreVectors f r g.now }
    ensures { IfOk result (λ m. m ≡ record { f = f; cols = r + length g.now; rows = augmented f g.now }) }
{
    let t = g.rows() as usize;
    let mut rows = Matrix::new(alloc, f, r + t);
    for k in 0..g.rows() {
        let mut row = digits_of(alloc, &g.row(k))?;
        row.extend_from_slice(&negative_unit(alloc, f, t, k as usize)?)?;
        rows.push_row(alloc, &row)?;
    }
    Ok(rows)
}

/// Whether column k is one of the leads.
fn is_lead(leads: &[usize], k: usize) -> bool
    ensures { IsTrue result ↔ Contains leads.now k }
{
    leads.contains(&k)
}

/// The columns of the space of the join that are none of the leads.
fn free_columns(alloc: Global, op: &Op, leads: &[usize]) -> Result<Vec<usize>, NoMemory>
    requires { (k : ℕ) → k < row_length op.now.op → (is_pivot op.now.f op.now.op.g3 k ≡ true) ↔ Contains leads.now k }
    ensures { IfOk result (λ free. free.items ≡ free_columns op.now.f (row_length op.now.op) op.now.op.g3) }
{
    let mut free = Vec::new(alloc);
    for k in 0..dimension(op) {
        if !is_lead(leads, k) {
            free.push(k)?;
        }
    }
    Ok(free)
}

/// The dimension of the space of a join.
fn dimension(op: &Op) -> usize
    ensures value { result ≡ row_length op.now.op }
    ensures small { result ≤ 18 }
    ensures valid { IsValidOp op.now.f op.now.op }
{
    let _ = op.field();
    op.t3() as usize + op.c() as usize
}

impl Basis {
    /// The basis of the space of the join.
    pub(crate) fn of(alloc: Global, op: &Op) -> Result<Basis, NoMemory>
        ensures { IfOk result (λ b. IsBasisOf op.now b) }
    {
        let rows = augmented(alloc, op.field(), dimension(op), op.g3())?;
        let reduced = Echelon::of(alloc, &rows)?;
        let free = free_columns(alloc, op, reduced.leads())?;
        Ok(Basis { reduced, free })
    }
}

/// The digits from place r on, and then those at some places.
fn read_off(alloc: Global, digits: &[u8], r: usize, places: &[usize]) -> Result<Vec<u8>, NoMemory>
    requires start { r ≤ length digits.now }
    requires places { All (λ k. k < length digits.now) places.now }
    ensures { IfOk result (λ v. v.items ≡ drop r digits.now ++ map (λ k. slice_index digits.now k) places.now) }
{
    let mut read = digits[r..].to_vec(alloc)?;
    for k in places {
        read.push(digits[*k])?;
    }
    Ok(read)
}

/// The digits that a vector has in the join: what is left of it at the free columns of G3, where its part along the rows of G3 is taken
/// away, comes after the coefficients of this part.
fn digits(alloc: Global, op: &Op, basis: &Basis, v: &Vector) -> Result<Vec<u8>, NoMemory>
    requires basis { IsBasisOf op.now basis.now }
    requires vector { IsVector op.now.f (row_length op.now.op) v.now }
    ensures { IfOk result (λ digits. digits.items ≡ column_digits op.now.f op.now.op v.now) }
{
    let r = dimension(op);
    let mut row = digits_of(alloc, v)?;
    row.resize(r + op.t3() as usize, 0)?;
    let rest = basis.reduced.residue(alloc, &row)?;
    read_off(alloc, &rest, r, &basis.free)
}

/// The digits that each row of g has in the join.
pub(crate) fn digits_in_join(
    alloc: Global,
    op: &Op,
    basis: &Basis,
    g: &Gen,
) -> Result<Matrix, NoMemory>
    requires basis { IsBasisOf op.now basis.now }
    requires rows { AreVectors op.now.f (row_length op.now.op) g.now }
    ensures { IfOk result (λ m. m ≡ record { f = op.now.f; cols = row_length op.now.op; rows = digits_at_join op.now.f op.now.op g.now }) }
{
    let mut rows = Matrix::new(alloc, op.field(), dimension(op));
    for k in 0..g.rows() {
        let row = digits(alloc, op, basis, &g.row(k))?;
        rows.push_row(alloc, &row)?;
    }
    Ok(rows)
}
