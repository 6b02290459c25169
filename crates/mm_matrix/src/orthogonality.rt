//! The rows that are orthogonal to all rows of a matrix.

ghost use Rattle.std.specs.Prelude.{◌≡◌, ◌<◌, ◌≤◌, ℕ, ◌++◌, length, map, IfOk, OnOk, IsTrue, ◌↔◌, Contains};
ghost use Rattle.mm_field.specs.Digits.{order};
ghost use Rattle.mm_field.specs.Vectors.{AreDigits, vector_sum, multiple};
ghost use Rattle.mm_linear.specs.Coordinates.{unit};
ghost use Rattle.mm_matrix.specs.Orthogonal.{IsOrthogonalBasis};
ghost use Rattle.mm_matrix.specs.Projections.{kernel_vector, kernel_vector_at, left};
ghost use Rattle.mm_matrix.specs.KeptRows.{digits};
ghost use Rattle.mm_matrix.specs.Residues.{AreReduced};

use crate::echelon::Echelon;
use crate::matrix::Matrix;
use mm_base::NoMemory;
use mm_field::{Elt, Field};
use std::alloc::Global;

/// The reduced echelon basis of all rows whose sum of products with each row of `m` is zero. It has as many rows as `m` has
/// columns beyond its rank.
pub fn orthogonal(alloc: Global, m: &Matrix) -> Result<Matrix, NoMemory>
    ensures { IfOk result (λ basis. IsOrthogonalBasis m.now basis) }
{
    let space = Echelon::of(alloc, m)?;
    let null = space.kernel_vectors(alloc)?;
    let basis = Echelon::of(alloc, &null)?;
    Ok(basis.into_matrix())
}

/// Adds `share` to the digit at `lead`.
fn add_share(f: Field, lead: usize, share: Elt, row: &mut [u8])
    requires place { lead < length row.old }
    requires share { share < order f }
    requires digits { AreDigits f row.old }
    ensures { row.new ≡ vector_sum f row.old (multiple f share (unit (length row.old) lead)) }
{
    row[lead] = f.add(row[lead], share);
}

/// Adds to a row, at the lead of each of the rows, the share that makes the unit vector at column `j` orthogonal to it.
fn add_shares(f: Field, rows: &Vec<Vec<u8>>, leads: &Vec<usize>, j: usize, row: &mut [u8])
    requires reduced { AreReduced f (length row.old) (digits rows.now.items) leads.now.items }
    requires column { j < length row.old }
    requires digits { AreDigits f row.old }
    ensures { row.new ≡ vector_sum f row.old (left f (length row.old) (digits rows.now.items) leads.now.items j 0) }
{
    for i in 0..rows.len() {
        add_share(f, leads[i], f.neg(rows[i][j]), row);
    }
}

/// The unit vector at column `j`, made orthogonal to the rows by shares at their leads.
fn kernel_vector(
    alloc: Global,
    f: Field,
    cols: usize,
    rows: &Vec<Vec<u8>>,
    leads: &Vec<usize>,
    j: usize,
) -> Result<Vec<u8>, NoMemory>
    requires reduced { AreReduced f cols (digits rows.now.items) leads.now.items }
    requires column { j < cols }
    ensures { IfOk result (λ row. row.items ≡ kernel_vector f cols (digits rows.now.items) leads.now.items j) }
{
    let mut row = vec![in alloc; 0; cols]?;
    row[j] = 1;
    add_shares(f, rows, leads, j, &mut row);
    Ok(row)
}

/// Whether `j` is one of the leads.
fn is_lead(leads: &[usize], j: usize) -> bool
    ensures { IsTrue result ↔ Contains leads.now j }
{
    leads.contains(&j)
}

/// Puts the projection of the unit vector at column `j` after the other rows of `null`, unless `j` is a lead.
pub fn add_kernel_vector(
    alloc: Global,
    f: Field,
    rows: &Vec<Vec<u8>>,
    leads: &Vec<usize>,
    j: usize,
    null: &mut Matrix,
) -> Result<(), NoMemory>
    requires reduced { AreReduced f null.old.cols (digits rows.now.items) leads.now.items }
    requires field { null.old.f ≡ f }
    requires column { j < null.old.cols }
    ensures { OnOk result (null.new ≡ record null.old {
      rows = null.old.rows ++ kernel_vector_at f null.old.cols (digits rows.now.items) leads.now.items j;
    }) }
{
    if is_lead(leads, j) {
        return Ok(());
    }
    let row = kernel_vector(alloc, f, null.cols(), rows, leads, j)?;
    null.push_row(alloc, &row)
}
