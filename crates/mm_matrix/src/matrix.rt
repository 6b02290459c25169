//! A matrix that grows row by row.

ghost use Rattle.std.specs.Prelude.{◌≡◌, ◌<◌, ◌++◌, [], ◌∷◌, length, map, slice_index, slice_index_or, slice_set, OnOk, OnErr};
ghost use Rattle.mm_field.specs.Digits.{order};
ghost use Rattle.mm_field.specs.Vectors.{IsVector, AreVectors};

use mm_base::NoMemory;
use mm_field::{Elt, Field};
use std::alloc::Global;
use std::marker::Model;

/// A matrix over a field. A new one has no rows; each row has as many digits as the matrix has columns.
#[derive(Drop)]
pub struct Matrix {
    field: Field,
    cols: usize,
    rows: Vec<Vec<u8>>,
}

impl Model for Matrix {
    ghost use Rattle.std.specs.Prelude.{map};
    ghost use Rattle.mm_field.specs.Vectors.{AreVectors};
    ghost use Rattle.mm_matrix.specs.MatrixValue.{MatrixValue};

    ghost Value = { MatrixValue };

    ghost view = { λ m. record { f = m.field; cols = m.cols; rows = map (λ r. r.items) m.rows.items } };

    ghost invariant = { λ m. AreVectors m.field m.cols (map (λ r. r.items) m.rows.items) };
}

impl Matrix {
    /// The matrix with these columns and no rows.
    pub fn new(alloc: Global, f: Field, cols: usize) -> Matrix
        ensures { result ≡ record { f = f; cols = cols; rows = [] } }
    {
        Matrix {
            field: f,
            cols,
            rows: Vec::new(alloc),
        }
    }

    /// The matrix of these rows.
    pub(crate) fn of_rows(f: Field, cols: usize, rows: Vec<Vec<u8>>) -> Matrix
        requires { AreVectors f cols (map (λ r. r.items) rows.items) }
        ensures { result ≡ record { f = f; cols = cols; rows = map (λ r. r.items) rows.items } }
    {
        Matrix {
            field: f,
            cols,
            rows,
        }
    }

    /// Puts a row of `cols` digits of the field after the others. The matrix is unchanged where memory is missing.
    pub fn push_row(&mut self, alloc: Global, row: &[u8]) -> Result<(), NoMemory>
        requires { IsVector self.old.f self.old.cols row.now }
        ensures ok { OnOk result (self.new ≡ record self.old { rows = self.old.rows ++ row.now ∷ [] }) }
        ensures err { OnErr result (self.new ≡ self.old) }
    {
        let row = row.to_vec(alloc)?;
        self.rows.push(row)?;
        Ok(())
    }

    /// The field of the digits.
    pub fn field(&self) -> Field
        ensures { result ≡ self.now.f }
    {
        self.field
    }

    /// The number of rows, each of which has a digit of the field in each column.
    pub fn rows(&self) -> usize
        ensures count { result ≡ length self.now.rows }
        ensures each { AreVectors self.now.f self.now.cols self.now.rows }
    {
        self.rows.len()
    }

    /// The number of columns.
    pub fn cols(&self) -> usize
        ensures { result ≡ self.now.cols }
    {
        self.cols
    }

    /// Row `i`, counted from 0.
    pub fn row(&self, i: usize) -> &[u8]
        requires { i < length self.now.rows }
        ensures value { result.now ≡ slice_index_or self.now.rows i [] }
        ensures vector { IsVector self.now.f self.now.cols result.now }
    {
        &self.rows[i]
    }

    /// The digit of row `i` in column `j`, both counted from 0.
    pub fn get(&self, i: usize, j: usize) -> Elt
        requires row { i < length self.now.rows }
        requires column { j < self.now.cols }
        ensures { result ≡ slice_index (slice_index_or self.now.rows i []) j }
    {
        self.row(i)[j]
    }

    /// Puts the digit `e` into column `j` of row `i`.
    pub fn set(&mut self, i: usize, j: usize, e: Elt)
        requires row { i < length self.old.rows }
        requires column { j < self.old.cols }
        requires digit { e < order self.old.f }
        ensures { self.new ≡ record self.old { rows = slice_set self.old.rows i (slice_set (slice_index_or self.old.rows i []) j e) } }
    {
        let row = &mut self.rows[i];
        row[j] = e;
    }
}
