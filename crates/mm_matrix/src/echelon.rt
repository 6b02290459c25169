//! The row space of a matrix, by its reduced echelon rows.

ghost use Rattle.std.specs.Prelude.{◌≡◌, ◌<◌, ◌∷◌, [], ℕ, length, slice_index_or, IfOk, MatchOption, IsTrue, ◌↔◌};
ghost use Rattle.mm_field.specs.Vectors.{IsVector, InSpan, IsWithin};
ghost use Rattle.mm_linear.specs.ReducedEchelon.{reduced_basis};
ghost use Rattle.mm_matrix.specs.MatrixValue.{HasRowSpace, reduced};
ghost use Rattle.mm_matrix.specs.Outside.{IsFirstOutside};
ghost use Rattle.mm_matrix.specs.Orthogonal.{IsNullOf};
ghost use Rattle.mm_matrix.specs.Residues.{AreReduced, IsResidueBy};

use crate::elimination::{insert, new_row, residue};
use crate::matrix::Matrix;
use crate::orthogonality::add_kernel_vector;
use mm_base::NoMemory;
use mm_field::Field;
use std::alloc::Global;
use std::marker::Model;

/// The row space of a matrix, kept as its reduced echelon rows: the first digit other than 0 of each row is a 1, these
/// places increase, and each is the only digit other than 0 of its column.
#[derive(Drop)]
pub struct Echelon {
    field: Field,
    cols: usize,
    rows: Vec<Vec<u8>>,
    leads: Vec<usize>,
}

impl Model for Echelon {
    ghost use Rattle.mm_matrix.specs.MatrixValue.{MatrixValue};

    ghost Value = { MatrixValue };

    ghost use Rattle.mm_matrix.specs.EchelonView.{value_of, IsKept};

    ghost view = { λ e. value_of e };

    ghost invariant = { IsKept };
}

impl Echelon {
    /// The reduced echelon rows of the row space of `m`.
    pub fn of(alloc: Global, m: &Matrix) -> Result<Echelon, NoMemory>
        ensures rows { IfOk result (λ e. e ≡ reduced m.now) }
        ensures span { IfOk result (λ e. HasRowSpace m.now e) }
    {
        let mut kept = Echelon {
            field: m.field(),
            cols: m.cols(),
            rows: Vec::new(alloc),
            leads: Vec::new(alloc),
        };
        for i in 0..m.rows() {
            kept = kept.with(alloc, m.row(i))?;
        }
        Ok(kept)
    }

    /// The space with one more row.
    fn with(self, alloc: Global, row: &[u8]) -> Result<Echelon, NoMemory>
        requires { IsVector self.f self.cols row.now }
        ensures { IfOk result (λ e. e ≡ record self { rows = reduced_basis self.f self.cols (row.now ∷ self.rows) }) }
    {
        let Echelon {
            field,
            cols,
            mut rows,
            mut leads,
        } = self;
        let Some(new) = new_row(alloc, field, &rows, &leads, row)? else {
            return Ok(Echelon {
                field,
                cols,
                rows,
                leads,
            });
        };
        insert(field, &mut rows, &mut leads, new)?;
        Ok(Echelon {
            field,
            cols,
            rows,
            leads,
        })
    }

    /// The dimension of the row space.
    pub fn rank(&self) -> usize
        ensures { result ≡ length self.now.rows }
    {
        self.rows.len()
    }

    /// The leads: the column of the first digit other than 0 of each row, from the first row to the last. They are the pivot columns.
    pub fn leads(&self) -> &[usize]
        ensures { AreReduced self.now.f self.now.cols self.now.rows result.now }
    {
        &self.leads
    }

    /// Row `i`, counted from 0.
    pub fn row(&self, i: usize) -> &[u8]
        requires { i < length self.now.rows }
        ensures value { result.now ≡ slice_index_or self.now.rows i [] }
        ensures vector { IsVector self.now.f self.now.cols result.now }
    {
        &self.rows[i]
    }

    /// The residue of `row`: the row plus a combination of the rows of the space, with 0 in each pivot column.
    pub fn residue(&self, alloc: Global, row: &[u8]) -> Result<Vec<u8>, NoMemory>
        requires { IsVector self.now.f self.now.cols row.now }
        ensures { IfOk result (λ rest. IsResidueBy self.now row.now rest.items) }
    {
        residue(alloc, self.field, &self.rows, &self.leads, row)
    }

    /// Whether `row` is a combination of the rows of the space.
    fn holds(&self, alloc: Global, row: &[u8]) -> Result<bool, NoMemory>
        requires { IsVector self.now.f self.now.cols row.now }
        ensures { IfOk result (λ b. IsTrue b ↔ InSpan self.now.f self.now.cols self.now.rows row.now) }
    {
        let new = new_row(alloc, self.field, &self.rows, &self.leads, row)?;
        Ok(new.is_none())
    }

    /// The least row of `m`, counted from 0, that is no combination of the rows of the space; None where all are.
    pub fn first_outside(&self, alloc: Global, m: &Matrix) -> Result<Option<usize>, NoMemory>
        requires field { m.now.f ≡ self.now.f }
        requires cols { m.now.cols ≡ self.now.cols }
        ensures { IfOk result (λ found. MatchOption found
            (IsWithin self.now.f self.now.cols m.now.rows self.now.rows)
            (λ i. IsFirstOutside self.now.f self.now.cols self.now.rows m.now.rows i)) }
    {
        for i in 0..m.rows() {
            if !self.holds(alloc, m.row(i))? {
                return Ok(Some(i));
            }
        }
        Ok(None)
    }

    /// A basis of the vectors that are orthogonal to the rows: the projections of the unit vectors at the columns that are no leads.
    pub fn kernel_vectors(&self, alloc: Global) -> Result<Matrix, NoMemory>
        ensures { IfOk result (λ null. IsNullOf self.now null) }
    {
        let mut null = Matrix::new(alloc, self.field, self.cols);
        for j in 0..self.cols {
            add_kernel_vector(alloc, self.field, &self.rows, &self.leads, j, &mut null)?;
        }
        Ok(null)
    }

    /// The reduced echelon rows as a matrix.
    pub fn into_matrix(self) -> Matrix
        ensures { result ≡ self }
    {
        let Echelon {
            field,
            cols,
            rows,
            leads: _,
        } = self;
        Matrix::of_rows(field, cols, rows)
    }
}
