//! A subspace of F^t, t at most 6, packed in one number.
#![tactic(auto)]

ghost use Rattle.std.specs.Prelude.{◌≡◌, ◌≢◌, ◌<◌, ◌≤◌, ◌+◌, ◌*◌, ◌/◌, ◌%◌, ◌^◌, ◌↔◌, ℕ, List, [], ◌∷◌, length, map, reverse, take, slice_index, slice_index_or, All, true, false};
ghost use Rattle.mm_field.specs.Digits.{order};
ghost use Rattle.mm_field.specs.Vectors.{AreDigits};
ghost use Rattle.mm_linear.specs.Echelons.{IsEchelon, entry};
ghost use Rattle.std.specs.Int.{bit_at};
ghost use Rattle.mm_linear.specs.ReducedEchelon.{reversed_rows};
ghost use Rattle.mm_space.specs.SpaceValue.{corner};
ghost use Rattle.mm_space.specs.MarkedRows.{marked_rows};
ghost use Rattle.mm_space.specs.KeyView.{IsReduced};
ghost use Rattle.mm_space.specs.KeyValue.{KeyValue, HaveSameVectors, IsKeyOf, number_onto, digit_at, code_of, joined_rows};

use crate::WIDTH;
use crate::generator::Gen;
use crate::rows::{Row, Rows};
use crate::space::Space;
use crate::vector::Vector;
use mm_field::{Elt, Field};
use std::marker::Model;

/// A subspace of F^t, t at most 6. Contracts see it as its field, t and reduced echelon basis, so two values of one field are
/// equal exactly where t is equal and the same vectors are in them.
///
/// Each number takes three bits: t, the field, how many basis rows there are, and then their digits, row by row.
#[derive(Clone, Copy, PartialEq, Eq, Hash, Debug)]
pub struct Key {
    bits: u128,
}

impl Model for Key {
    ghost use Rattle.mm_space.specs.KeyView.{IsReduced};
    ghost use Rattle.mm_space.specs.KeyValue.{KeyValue, packed, unpacked};
    ghost use Rattle.std.proofs.Common.{ap};

    ghost Value = { KeyValue };

    ghost use Rattle.mm_space.specs.KeyView.{IsPacked};

    ghost view = { λ k. unpacked k.bits };

    ghost invariant = { IsPacked };

    ghost inverse = { λ v. record { bits = packed v } };

    ghost inverse_ok = { λ a h. ap (λ b. record { bits = b }) h.back };
}

impl Key {
    /// The law that two keys of one field are equal exactly where t is equal and the same vectors are in them.
    pub fn equal_by_vectors(&self, other: &Key)
        requires { other.now.f ≡ self.now.f }
        ensures { (self.now ≡ other.now) ↔ ((other.now.t ≡ self.now.t) × HaveSameVectors self.now other.now) }
    {
        let _ = (self.bits, other.bits);
    }

    /// The zero subspace of F^t.
    pub fn zero(f: Field, t: u8) -> Key
        requires { t ≤ 6 }
        ensures { IsKeyOf f t [] result }
    {
        Key {
            bits: t as u128 + 8 * code(f) as u128,
        }
    }

    /// The multiples of v.
    pub fn span_of(f: Field, v: &Vector) -> Key
        requires short { length v.now ≤ 6 }
        requires digits { AreDigits f v.now }
        ensures { IsKeyOf f (length v.now) (v.now ∷ []) result }
    {
        let mut space = Space::zero(f, v.len());
        space.add_vector(v);
        space.head(v.len())
    }

    /// The reduced echelon rows of the subspace: each has its first digit other than 0, a 1, further right than the row before it,
    /// and the other rows have 0 there.
    pub fn basis(&self, f: Field) -> Gen
        requires { f ≡ self.now.f }
        ensures { result ≡ self.now.rows }
    {
        let mut rows = Gen::none();
        for i in 0..self.rank() {
            rows.push(self.row(i));
        }
        rows
    }

    // Basis row i.
    fn row(&self, i: u8) -> Vector
        requires { i < length self.now.rows }
        ensures { result ≡ slice_index_or self.now.rows i [] }
    {
        let mut digits = [0; WIDTH];
        for j in 0..self.t() {
            digits[j as usize] = self.at(i, j);
        }
        Vector::of(self.t(), digits)
    }

    /// The space of the vectors of the t by t corner of kept rows, each turned round. Where the kept rows are read from the right,
    /// these are read from the left.
    pub(crate) fn of_corner(f: Field, t: u8, rows: &Rows) -> Key
        requires narrow { t ≤ 6 }
        requires echelon { IsEchelon f 24 rows.now }
        ensures { IsKeyOf f t (map reverse (corner t rows.now)) result }
    {
        Key::of_marked_corner(f, t, u64::MAX, rows)
    }

    /// The same, of the rows alone that the marks show; the others count as zero rows.
    #[inline(always)]
    pub(crate) fn of_marked_corner(f: Field, t: u8, marks: u64, rows: &Rows) -> Key
        requires narrow { t ≤ 6 }
        requires echelon { IsEchelon f 24 (marked_rows 24 marks rows.now) }
        ensures { IsKeyOf f t (map reverse (corner t (marked_rows 24 marks rows.now))) result }
    {
        let (packed, rank) = with_rows(t as usize, marks, rows);
        Key {
            bits: t as u128 + 8 * (code(f) as u128 + 8 * (rank as u128 + 8 * packed)),
        }
    }

    /// How many digits the vectors have. It tells what holds of every key, too.
    #[inline]
    pub fn t(&self) -> u8
        ensures length { result ≡ self.now.t }
        ensures reduced { IsReduced self.now }
    {
        number_at(self.bits, 0)
    }

    /// The field.
    #[inline]
    pub(crate) fn field(&self) -> Field
        ensures { result ≡ self.now.f }
    {
        match number_at(self.bits, 1) {
            0 => Field::Two,
            1 => Field::Three,
            2 => Field::Four,
            _ => Field::Five,
        }
    }

    /// How many basis rows there are.
    #[inline]
    pub(crate) fn rank(&self) -> u8
        ensures count { result ≡ length self.now.rows }
        ensures few { result ≤ 6 }
        ensures reduced { IsReduced self.now }
    {
        number_at(self.bits, 2)
    }

    /// Digit j of basis row i.
    #[inline]
    pub(crate) fn at(&self, i: u8, j: u8) -> Elt
        requires row { i < length self.now.rows }
        requires place { j < self.now.t }
        ensures { result ≡ slice_index (slice_index_or self.now.rows i []) j }
    {
        number_at(self.bits, 3 + self.t() * i + j)
    }

    /// The digits of basis row i, three bits each, the first one lowest.
    #[inline(always)]
    pub(crate) fn row_digits(&self, i: u8) -> u32
        requires row { i < length self.now.rows }
        ensures { (j : ℕ) → j < self.now.t → result / 2 ^ (3 * j) % 8 ≡ slice_index (slice_index_or self.now.rows i []) j }
    {
        ((self.bits >> (9 + 3 * self.t() * i)) % 262144) as u32
    }
}

// The field's own number.
#[inline]
fn code(f: Field) -> u8
    ensures { result ≡ code_of f }
{
    f.q() - 2
}

// Number k of those that are packed.
#[inline]
fn number_at(bits: u128, k: u8) -> u8
    requires { k < 42 }
    ensures number { result ≡ digit_at bits k }
    ensures small { result < 8 }
{
    ((bits >> (3 * k)) % 8) as u8
}

// The packed numbers with the first t digits of a row put before them, the last digit first.
#[inline]
fn with_row(packed: u128, t: usize, row: &Row) -> u128
    requires narrow { t ≤ 6 }
    requires digits { All (λ d. d < 8) row.now }
    requires room { packed < 2 ^ 90 }
    ensures packed { result ≡ number_onto packed (reverse (take t row.now)) }
    ensures room { (b : ℕ) → packed < 2 ^ b → result < 2 ^ (b + 18) }
{
    let mut all = packed;
    for k in 0..t {
        all = row[k] as u128 + 8 * all;
    }
    all
}

// Whether row j is marked and has a digit other than 0 at place j.
#[inline(always)]
fn has_row(marks: u64, rows: &Rows, j: usize) -> bool
    requires { j < 24 }
    ensures some { result ≡ true → (bit_at marks j ≡ 1) × (entry rows.now j j ≢ 0) }
    ensures none { result ≡ false → entry (marked_rows 24 marks rows.now) j j ≡ 0 }
{
    if (marks >> j) & 1 == 0 {
        return false;
    }
    rows[j][j] != 0
}

// The digits of the rows other than zero of the t by t corner, from the last row to the first and each from its last digit to
// its first, and how many rows these are.
#[inline]
fn with_rows(t: usize, marks: u64, rows: &Rows) -> (u128, u8)
    requires narrow { t ≤ 6 }
    requires digits { All (λ row. All (λ d. d < 8) row) (marked_rows 24 marks rows.now) }
    ensures packed { result.0 ≡ number_onto 0 (joined_rows (reversed_rows (corner t (marked_rows 24 marks rows.now)) t)) }
    ensures rank { result.1 ≡ length (reversed_rows (corner t (marked_rows 24 marks rows.now)) t) }
    ensures few { result.1 ≤ t }
    ensures room { result.0 < 2 ^ 108 }
{
    let mut packed = 0;
    let mut rank = 0;
    for j in 0..t {
        if has_row(marks, rows, j) {
            packed = with_row(packed, t, &rows[j]);
            rank += 1;
        }
    }
    (packed, rank)
}
