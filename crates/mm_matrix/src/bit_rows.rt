//! Rows over GF(2), 64 digits a word, for rows that are long. They are reduced by one another in turn: a row has a pivot, where it has
//! a 1, and 0 at the pivots of the rows before it. No row is changed once it is kept.

ghost use Rattle.std.specs.Prelude.{◌≡◌, ◌<◌, ◌+◌, ◌/◌, ◌∷◌, [], ℕ, length, slice_index, bit_xor, IfOk, IfSome, IfNone, OnOk, MatchOption, IsTrue, ◌↔◌};
ghost use Rattle.mm_field.specs.Vectors.{AreDigits, IsVector, AreVectors, InSpan, IsWithin, SameRowSpace, zeros};
ghost use Rattle.mm_linear.specs.Eliminate.{cleared};
ghost use Rattle.mm_matrix.specs.BitRows.{bit_of, bits, bit_rows, IsWide, AreWide, AreStairs};
ghost use Rattle.mm_matrix.specs.Outside.{IsFirstOutside};
ghost use Rattle.mm_matrix.specs.Residues.{IsResidue};

use crate::matrix::Matrix;
use mm_base::NoMemory;
use mm_field::Field;
use std::alloc::Global;

/// Digit `k` of packed words.
fn digit(words: &[u64], k: usize) -> u64
    requires { k / 64 < length words.now }
    ensures { result ≡ bit_of words.now k }
{
    words[k / 64] >> (k % 64) & 1
}

/// Adds x to y.
fn add(x: &[u64], y: &mut [u64])
    requires same_length { length x.now ≡ length y.old }
    ensures length { length y.new ≡ length y.old }
    ensures sum { (i : ℕ) → i < length y.old → slice_index y.new i ≡ bit_xor (slice_index y.old i) (slice_index x.now i) }
{
    for i in 0..x.len() {
        y[i] ^= x[i];
    }
}

/// The digits of a row as bits.
fn packed(alloc: Global, row: &[u8]) -> Result<Vec<u64>, NoMemory>
    requires { AreDigits Field.Two row.now }
    ensures wide { IfOk result (λ words. IsWide (length row.now) words.items) }
    ensures digits { IfOk result (λ words. bits (length row.now) words.items ≡ row.now) }
{
    let mut words = vec![in alloc; 0u64; row.len() / 64 + 1]?;
    for k in 0..row.len() {
        words[k / 64] |= (row[k] as u64) << (k % 64);
    }
    Ok(words)
}

/// Takes from `v` its part along `w`, which has a 1 at place `k`.
fn clear(cols: usize, k: usize, w: &[u64], v: &mut [u64])
    requires place { k < cols }
    requires wide { IsWide cols w.now }
    requires same { IsWide cols v.old }
    ensures wide { IsWide cols v.new }
    ensures cleared { bits cols v.new ≡ cleared Field.Two k (bits cols w.now) (bits cols v.old) }
{
    if digit(v, k) != 0 {
        add(w, v);
    }
}

/// Takes from `v` its part along the rows.
fn reduce(cols: usize, rows: &Vec<Vec<u64>>, pivots: &Vec<usize>, v: &mut [u64])
    requires wide { IsWide cols v.old }
    requires rows { AreWide cols rows.now.items }
    requires stairs { AreStairs cols (bit_rows cols rows.now.items) pivots.now.items }
    ensures wide { IsWide cols v.new }
    ensures residue { IsResidue Field.Two cols (bit_rows cols rows.now.items) pivots.now.items (bits cols v.old) (bits cols v.new) }
{
    for i in 0..rows.len() {
        clear(cols, pivots[i], &rows[i], v);
    }
}

/// The least place with a 1. None exactly where all digits are 0.
fn first_one(cols: usize, words: &[u64]) -> Option<usize>
    requires { IsWide cols words.now }
    ensures found { IfSome result (λ p. (p < cols) × (bit_of words.now p ≡ 1)) }
    ensures none { IfNone result (bits cols words.now ≡ zeros cols) }
{
    for k in 0..cols {
        if digit(words, k) != 0 {
            return Some(k);
        }
    }
    None
}

/// Puts what is left of a row after the rows, unless nothing is.
fn put(
    alloc: Global,
    cols: usize,
    rows: &mut Vec<Vec<u64>>,
    pivots: &mut Vec<usize>,
    row: &[u8],
) -> Result<(), NoMemory>
    requires vector { IsVector Field.Two cols row.now }
    requires wide { AreWide cols rows.old.items }
    requires stairs { AreStairs cols (bit_rows cols rows.old.items) pivots.old.items }
    ensures wide { OnOk result (AreWide cols rows.new.items) }
    ensures stairs { OnOk result (AreStairs cols (bit_rows cols rows.new.items) pivots.new.items) }
    ensures span { OnOk result (SameRowSpace Field.Two cols (row.now ∷ bit_rows cols rows.old.items) (bit_rows cols rows.new.items)) }
{
    let mut rest = packed(alloc, row)?;
    reduce(cols, rows, pivots, &mut rest);
    if let Some(p) = first_one(cols, &rest) {
        rows.push(rest)?;
        pivots.push(p)?;
    }
    Ok(())
}

/// Puts all rows of a matrix.
fn put_all(
    alloc: Global,
    m: &Matrix,
    rows: &mut Vec<Vec<u64>>,
    pivots: &mut Vec<usize>,
) -> Result<(), NoMemory>
    requires field { m.now.f ≡ Field.Two }
    requires rows { rows.old.items ≡ [] }
    requires pivots { pivots.old.items ≡ [] }
    ensures wide { OnOk result (AreWide m.now.cols rows.new.items) }
    ensures stairs { OnOk result (AreStairs m.now.cols (bit_rows m.now.cols rows.new.items) pivots.new.items) }
    ensures span { OnOk result (SameRowSpace Field.Two m.now.cols m.now.rows (bit_rows m.now.cols rows.new.items)) }
{
    for i in 0..m.rows() {
        put(alloc, m.cols(), rows, pivots, m.row(i))?;
    }
    Ok(())
}

/// Whether `row` is a combination of the rows.
fn is_inside(
    alloc: Global,
    cols: usize,
    rows: &Vec<Vec<u64>>,
    pivots: &Vec<usize>,
    row: &[u8],
) -> Result<bool, NoMemory>
    requires vector { IsVector Field.Two cols row.now }
    requires wide { AreWide cols rows.now.items }
    requires stairs { AreStairs cols (bit_rows cols rows.now.items) pivots.now.items }
    ensures { IfOk result (λ b. IsTrue b ↔ InSpan Field.Two cols (bit_rows cols rows.now.items) row.now) }
{
    let mut rest = packed(alloc, row)?;
    reduce(cols, rows, pivots, &mut rest);
    Ok(first_one(cols, &rest).is_none())
}

/// The least row of `m`, counted from 0, that is no combination of the rows of `others`; None where all are. The field is GF(2).
pub fn first_outside_bits(
    alloc: Global,
    m: &Matrix,
    others: &Matrix,
) -> Result<Option<usize>, NoMemory>
    requires field { m.now.f ≡ Field.Two }
    requires same { others.now.f ≡ Field.Two }
    requires cols { others.now.cols ≡ m.now.cols }
    ensures { IfOk result (λ found. MatchOption found
        (IsWithin Field.Two m.now.cols m.now.rows others.now.rows)
        (λ i. IsFirstOutside Field.Two m.now.cols others.now.rows m.now.rows i)) }
{
    let _ = others.rows();
    let mut rows = Vec::new(alloc);
    let mut pivots = Vec::new(alloc);
    put_all(alloc, others, &mut rows, &mut pivots)?;
    for i in 0..m.rows() {
        if !is_inside(alloc, m.cols(), &rows, &pivots, m.row(i))? {
            return Ok(Some(i));
        }
    }
    Ok(None)
}
