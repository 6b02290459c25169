//! The rows that a text gives.
ghost use Rattle.std.specs.Prelude.{◌≡◌};
ghost use Rattle.mm_job_text.specs.Becoming.{Becomes};
ghost use Rattle.mm_job_text.specs.HeaderLines.{row_line};

use crate::arguments::{args, one};
use crate::digits::read_digits;
use crate::refusal::{Limit, Refusal, Stop};
use mm_lines::Line;
use mm_matrix::Matrix;
use std::alloc::Global;

/// The most rows of a text.
const MAX_ROWS: usize = 4096;

/// Adds the row of a `row` line. Its digits are of the matrix's field, as many as the matrix has columns.
#[tactic(auto, unfolding(crate::specs::HeaderLines::row_line))]
pub fn add_row(alloc: Global, rows: &mut Matrix, line: &Line) -> Result<(), Stop>
    ensures rows { Becomes result rows.new.rows (row_line rows.old.f rows.old.cols rows.old.rows line.now) }
    ensures field { rows.new.f ≡ rows.old.f }
    ensures cols { rows.new.cols ≡ rows.old.cols }
{
    let Some(token) = one(args(line)) else {
        return Err(Stop::Refused(Refusal::Syntax(line.number)));
    };
    let Some(row) = read_digits(alloc, rows.field(), token)? else {
        return Err(Stop::Refused(Refusal::Syntax(line.number)));
    };
    if row.len() != rows.cols() {
        return Err(Stop::Refused(Refusal::Syntax(line.number)));
    }
    if rows.rows() >= MAX_ROWS {
        return Err(Stop::Refused(Refusal::Over(Limit::Rows, line.number)));
    }
    rows.push_row(alloc, &row)?;
    Ok(())
}
