//! The operator of a join, from the bases of its space and of the spaces of its children.

ghost use Rattle.std.specs.Prelude.{◌≡◌, ◌<◌, ◌≤◌, ◌+◌, ◌++◌, length, map, take, drop, IfOk, OnOk, All};
ghost use Rattle.std.specs.List.{range_with_len};
ghost use Rattle.mm_field.specs.Vectors.{AreDigits};
ghost use Rattle.mm_field.specs.declared.Field.TheVariants.{Five};
ghost use Rattle.mm_space.specs.VectorText.{gen_text, vector_text};
ghost use Rattle.mm_decomp.specs.BuiltTree.{built_operator, first_digit};
ghost use Rattle.mm_decomp.specs.Forms.{AreBases, AreCoordinates, all_columns};

use crate::form::stack;
use mm_base::NoMemory;
use mm_field::{Field, lanes};
use mm_matrix::{Echelon, Matrix};
use mm_ops::Op;
use mm_space::{Gen, Vector};
use std::alloc::Global;

/// The numbers below `n`, in order.
fn places(alloc: Global, n: usize) -> Result<Vec<usize>, NoMemory>
    ensures { IfOk result (λ places. places.items ≡ range_with_len 0 n) }
{
    let mut places = Vec::new(alloc);
    for i in 0..n {
        places.push(i)?;
    }
    Ok(places)
}

/// All columns of a matrix, each as a row.
pub(crate) fn transposed(alloc: Global, m: &Matrix) -> Result<Matrix, NoMemory>
    ensures { IfOk result (λ t. t ≡ record { f = m.now.f; cols = length m.now.rows; rows = all_columns m.now.cols m.now.rows }) }
{
    let places = places(alloc, m.cols())?;
    m.columns(alloc, &places)
}

/// The coordinates of each row in the list of those rows that are no combinations of the rows before.
fn coordinates(alloc: Global, all: &Matrix) -> Result<Matrix, NoMemory>
    ensures { IfOk result (λ found. AreCoordinates all.now found) }
{
    // The digits at the leads of the span determine a row. Of the matrix that has these as its columns, the reduced rows have a lead
    // where a row is new, and in each column the coordinates of a row.
    let span = Echelon::of(alloc, all)?;
    let digits = all.columns(alloc, span.leads())?;
    let columns = Echelon::of(alloc, &digits)?;
    transposed(alloc, &columns.into_matrix())
}

/// Writes a vector: its digits, and `-` for none.
pub(crate) fn append_digits(text: &mut Vec<u8>, digits: &[u8]) -> Result<(), NoMemory>
    requires { AreDigits Five digits.now }
    ensures { OnOk result (text.new.items ≡ text.old.items ++ vector_text digits.now) }
{
    if digits.is_empty() {
        text.push(b'-')?;
        return Ok(());
    }
    for d in digits {
        text.push(b'0' + *d)?;
    }
    Ok(())
}

/// The text of `count` rows from row `from` on, with `/` between them.
fn rows_text(alloc: Global, m: &Matrix, from: usize, count: usize) -> Result<Vec<u8>, NoMemory>
    requires some { 0 < count }
    requires rows { from + count ≤ length m.now.rows }
    ensures { IfOk result (λ text. text.items ≡ gen_text (take count (drop from m.now.rows))) }
{
    let _ = m.rows();
    let mut text = Vec::new(alloc);
    append_digits(&mut text, m.row(from))?;
    for i in 1..count {
        text.push(b'/')?;
        append_digits(&mut text, m.row(from + i))?;
    }
    Ok(text)
}

/// The rows from row `from` on, `count` of them, in place.
fn generator(alloc: Global, m: &Matrix, from: usize, count: usize) -> Result<Gen, NoMemory>
    requires rows { from + count ≤ length m.now.rows }
    requires few { count ≤ 6 }
    requires short { m.now.cols ≤ 18 }
    ensures { IfOk result (λ gen. gen ≡ take count (drop from m.now.rows)) }
{
    let _ = m.rows();
    if count == 0 {
        return Ok(Gen::read(m.field(), b".").unwrap());
    }
    let text = rows_text(alloc, m, from, count)?;
    Ok(Gen::read(m.field(), &text).unwrap())
}

/// The operator of a join with this basis, whose children have these.
pub(crate) fn operator(
    alloc: Global,
    basis: &Matrix,
    first: &Matrix,
    second: &Matrix,
) -> Result<Op, NoMemory>
    requires { AreBases basis.now.f basis.now.cols basis.now first.now second.now }
    ensures { IfOk result (λ op. op ≡ record {
      f = basis.now.f;
      op = built_operator basis.now.f basis.now.cols basis.now.rows first.now.rows second.now.rows;
    }) }
{
    let all = stack(alloc, &stack(alloc, basis, first)?, second)?;
    let found = coordinates(alloc, &all)?;
    let (t1, t2, t3) = (first.rows(), second.rows(), basis.rows());
    let g1 = generator(alloc, &found, t3, t1)?;
    let g2 = generator(alloc, &found, t3 + t1, t2)?;
    let c = found.cols().saturating_sub(t3);
    let made = Op::new(
        basis.field(),
        t1 as u32,
        t2 as u32,
        t3 as u32,
        c as u32,
        g1,
        g2,
    );
    Ok(made.unwrap())
}

/// The first digit of a column that is not 0, as a vector; no digit where all are 0.
pub(crate) fn first_digit(f: Field, column: &[u8]) -> Vector
    requires { AreDigits f column.now }
    ensures { result ≡ first_digit column.now }
{
    let shown = match lanes::first_nonzero(column) {
        Some(p) => b'0' + column[p],
        None => b'-',
    };
    Vector::read(f, &[shown]).unwrap()
}
