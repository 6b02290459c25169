//! Forms: what the elements below a node say of the dependencies of all columns.

ghost use Rattle.std.specs.Prelude.{◌≡◌, ◌++◌, ◌∷◌, [], length, IfOk};
ghost use Rattle.mm_field.specs.Vectors.{IsVector};
ghost use Rattle.mm_decomp.specs.Forms.{HasSizes, IsJoinForm, IsLeafForm, ReducesBeside};

use mm_base::NoMemory;
use mm_field::Field;
use mm_matrix::{Echelon, Matrix};
use std::alloc::Global;

/// A linear map from the dependencies of all columns to the space of a node: at a it is the sum of the products of a with the
/// functionals, times the basis vectors.
#[derive(Drop)]
pub(crate) struct Form {
    pub(crate) functionals: Matrix,
    pub(crate) basis: Matrix,
}

/// Rows in reduced form, and sums of other rows.
#[derive(Drop)]
struct Reduced {
    rows: Matrix,
    sums: Matrix,
}

/// The rows of one matrix and then those of another.
pub(crate) fn stack(alloc: Global, first: &Matrix, second: &Matrix) -> Result<Matrix, NoMemory>
    requires field { second.now.f ≡ first.now.f }
    requires cols { second.now.cols ≡ first.now.cols }
    ensures { IfOk result (λ m. m ≡ record { f = first.now.f; cols = first.now.cols; rows = first.now.rows ++ second.now.rows }) }
{
    Matrix::new(alloc, first.field(), first.cols())
        .stacked(alloc, first)?
        .stacked(alloc, second)
}

/// The reduced rows of `rows`, and the sums of `others` that keep the sum of products of both lists.
fn reduce_beside(alloc: Global, rows: &Matrix, others: &Matrix) -> Result<Reduced, NoMemory>
    requires field { others.now.f ≡ rows.now.f }
    requires count { length rows.now.rows ≡ length others.now.rows }
    ensures { IfOk result (λ both.
        ReducesBeside rows.now.f rows.now.cols others.now.cols rows.now.rows others.now.rows both.rows both.sums) }
{
    let _ = others.rows();
    let space = Echelon::of(alloc, rows)?;
    let coefficients = rows.columns(alloc, space.leads())?;
    let sums = coefficients.times(alloc, others)?;
    Ok(Reduced {
        rows: space.into_matrix(),
        sums,
    })
}

/// The matrix of one row.
fn one_row(alloc: Global, f: Field, row: &[u8]) -> Result<Matrix, NoMemory>
    requires { IsVector f (length row.now) row.now }
    ensures { IfOk result (λ m. m ≡ record { f = f; cols = length row.now; rows = row.now ∷ [] }) }
{
    let mut m = Matrix::new(alloc, f, row.len());
    m.push_row(alloc, row)?;
    Ok(m)
}

impl Form {
    /// The form of one element with this vector and this column.
    pub(crate) fn leaf(
        alloc: Global,
        f: Field,
        functional: &[u8],
        column: &[u8],
    ) -> Result<Form, NoMemory>
        requires functional { IsVector f (length functional.now) functional.now }
        requires column { IsVector f (length column.now) column.now }
        ensures { IfOk result (λ form. IsLeafForm f (length functional.now) (length column.now) functional.now column.now form) }
    {
        let functionals = one_row(alloc, f, functional)?;
        let columns = one_row(alloc, f, column)?;
        let narrow = reduce_beside(alloc, &columns, &functionals)?;
        Ok(Form {
            functionals: narrow.sums,
            basis: narrow.rows,
        })
    }

    /// The form of the elements below a join.
    pub(crate) fn join(alloc: Global, left: &Form, right: &Form) -> Result<Form, NoMemory>
        requires left { HasSizes left.now.basis.f left.now.functionals.cols left.now.basis.cols left.now }
        requires right { HasSizes left.now.basis.f left.now.functionals.cols left.now.basis.cols right.now }
        ensures { IfOk result (λ form. IsJoinForm left.now.basis.f left.now.functionals.cols left.now.basis.cols left.now right.now form) }
    {
        let functionals = stack(alloc, &left.functionals, &right.functionals)?;
        let vectors = stack(alloc, &left.basis, &right.basis)?;
        let wide = reduce_beside(alloc, &functionals, &vectors)?;
        let narrow = reduce_beside(alloc, &wide.sums, &wide.rows)?;
        Ok(Form {
            functionals: narrow.sums,
            basis: narrow.rows,
        })
    }
}
