//! Columns, products and stacks of matrices.

ghost use Rattle.std.specs.Prelude.{◌≡◌, ◌<◌, ◌++◌, length, map, IfOk, All};
ghost use Rattle.mm_field.specs.Vectors.{IsVector, combination, times_matrix};
ghost use Rattle.mm_matrix.specs.Columns.{column};

use crate::matrix::Matrix;
use mm_base::NoMemory;
use mm_field::lanes;
use std::alloc::Global;

/// Column `j` of a matrix, from the top.
fn column(alloc: Global, m: &Matrix, j: usize) -> Result<Vec<u8>, NoMemory>
    requires { j < m.now.cols }
    ensures { IfOk result (λ digits. digits.items ≡ column m.now.rows j) }
{
    let mut digits = Vec::new(alloc);
    for i in 0..m.rows() {
        digits.push(m.get(i, j))?;
    }
    Ok(digits)
}

/// The combination of the rows of a matrix with these coefficients.
pub fn combination(alloc: Global, coefficients: &[u8], m: &Matrix) -> Result<Vec<u8>, NoMemory>
    requires { IsVector m.now.f (length m.now.rows) coefficients.now }
    ensures { IfOk result (λ sum. sum.items ≡ combination m.now.f m.now.cols coefficients.now m.now.rows) }
{
    let mut sum = vec![in alloc; 0; m.cols()]?;
    for i in (0..m.rows()).rev() {
        lanes::axpy(m.field(), coefficients[i], m.row(i), &mut sum);
    }
    Ok(sum)
}

impl Matrix {
    /// The columns at some places, each as a row of the new matrix.
    pub fn columns(&self, alloc: Global, places: &[usize]) -> Result<Matrix, NoMemory>
        requires { All (λ j. j < self.now.cols) places.now }
        ensures { IfOk result (λ m. m ≡ record {
          f = self.now.f;
          cols = length self.now.rows;
          rows = map (column self.now.rows) places.now;
        }) }
    {
        let mut columns = Matrix::new(alloc, self.field(), self.rows());
        for k in 0..places.len() {
            let digits = column(alloc, self, places[k])?;
            columns.push_row(alloc, &digits)?;
        }
        Ok(columns)
    }

    /// The product with another matrix: each row is the combination of the other's rows with the digits of a row of this one.
    pub fn times(&self, alloc: Global, other: &Matrix) -> Result<Matrix, NoMemory>
        requires field { other.now.f ≡ self.now.f }
        requires fits { length other.now.rows ≡ self.now.cols }
        ensures { IfOk result (λ m. m ≡ record {
          f = self.now.f;
          cols = other.now.cols;
          rows = map (times_matrix self.now.f other.now.cols other.now.rows) self.now.rows;
        }) }
    {
        let _ = other.rows();
        let mut product = Matrix::new(alloc, self.field(), other.cols());
        for i in 0..self.rows() {
            let sum = combination(alloc, self.row(i), other)?;
            product.push_row(alloc, &sum)?;
        }
        Ok(product)
    }

    /// The matrix with the rows of `other` after its own.
    pub fn stacked(mut self, alloc: Global, other: &Matrix) -> Result<Matrix, NoMemory>
        requires field { other.now.f ≡ self.f }
        requires cols { other.now.cols ≡ self.cols }
        ensures { IfOk result (λ m. m ≡ record self { rows = self.rows ++ other.now.rows }) }
    {
        for i in 0..other.rows() {
            self.push_row(alloc, other.row(i))?;
        }
        Ok(self)
    }
}
