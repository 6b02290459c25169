//! The rows of a join from the boundary rows of its children.

ghost use Rattle.std.specs.Prelude.{◌≡◌, ◌<◌, ◌≤◌, ◌+◌, ◌^◌, ℕ, IfOk, length, take, drop};
ghost use Rattle.mm_field.specs.Vectors.{zeros};
ghost use Rattle.mm_present.specs.Joining.{IsSide, side_row, join_row, widened, with_digits};

use mm_base::NoMemory;
use mm_field::lanes;
use mm_matrix::Matrix;
use std::alloc::Global;

/// The boundary rows of a child of a join, and the digits that the row of its boundary matrix at each of them has in the join.
#[derive(Drop)]
pub(crate) struct Side<'a> {
    pub(crate) digits: &'a Matrix,
    pub(crate) rows: Matrix,
}

impl<'a> Side<'a> {
    /// The side with these boundary rows and the digits that they have in the join.
    pub(crate) fn new(digits: &'a Matrix, rows: Matrix) -> Side<'a>
        ensures { (result.rows ≡ rows) × (result.digits.now ≡ digits.now) }
    {
        Side { digits, rows }
    }
}

/// Makes zeros into row k of the join at the elements of a child.
fn add_side(side: &Side, k: usize, out: &mut [u8])
    requires side { IsSide side.now.rows.f side.now.digits.now.cols side.now }
    requires row { k < side.now.digits.now.cols }
    requires zero { out.old ≡ zeros side.now.rows.cols }
    ensures { out.new ≡ side_row k side.now }
{
    for i in (0..side.rows.rows()).rev() {
        let digit = side.digits.row(i)[k];
        lanes::axpy(side.rows.field(), digit, side.rows.row(i), out);
    }
}

/// Puts row k of the join at the elements of a child in the place of the zeros that a row has from `start` on.
fn put_side(side: &Side, k: usize, start: usize, row: &mut [u8])
    requires side { IsSide side.now.rows.f side.now.digits.now.cols side.now }
    requires row { k < side.now.digits.now.cols }
    requires room { start + side.now.rows.cols ≤ length row.old }
    requires zero { take side.now.rows.cols (drop start row.old) ≡ zeros side.now.rows.cols }
    ensures { row.new ≡ with_digits start (side_row k side.now) row.old }
{
    add_side(side, k, &mut row[start..start + side.rows.cols()]);
}

/// Puts row k of the join after the first `before` digits of a row of zeros.
fn put_sides(left: &Side, right: &Side, k: usize, before: usize, after: usize, row: &mut [u8])
    requires left { IsSide left.now.rows.f left.now.digits.now.cols left.now }
    requires right { IsSide right.now.rows.f right.now.digits.now.cols right.now }
    requires row_left { k < left.now.digits.now.cols }
    requires row_right { k < right.now.digits.now.cols }
    requires zero { row.old ≡ zeros (before + left.now.rows.cols + right.now.rows.cols + after) }
    ensures { row.new ≡ widened before after (join_row left.now right.now k) }
{
    put_side(left, k, before, row);
    put_side(right, k, before + left.rows.cols(), row);
}

/// Row k of the join, with zeros before and after it.
pub(crate) fn join_row(
    alloc: Global,
    left: &Side,
    right: &Side,
    k: usize,
    before: usize,
    after: usize,
) -> Result<Vec<u8>, NoMemory>
    requires left { IsSide left.now.rows.f left.now.digits.now.cols left.now }
    requires right { IsSide right.now.rows.f right.now.digits.now.cols right.now }
    requires row_left { k < left.now.digits.now.cols }
    requires row_right { k < right.now.digits.now.cols }
    requires room { before + (left.now.rows.cols + right.now.rows.cols) + after < 2 ^ 32 }
    ensures { IfOk result (λ row. row.items ≡ widened before after (join_row left.now right.now k)) }
{
    let columns = before + left.rows.cols() + right.rows.cols() + after;
    let mut row = vec![in alloc; 0; columns]?;
    put_sides(left, right, k, before, after, &mut row);
    Ok(row)
}
