//! Square echelon rows that one join after another works on.
//!
//! A mark tells of each place whether its row counts; the others count as zero rows, whatever is stored there. So nothing is
//! cleared between two joins, and each step looks at the rows alone that it changes something by.

ghost use Rattle.std.specs.Prelude.{◌≡◌, ◌<◌, ◌≤◌, ◌^◌, ℕ, ◌∷◌, length, map, reverse, take, drop, true, false};
ghost use Rattle.mm_field.specs.Vectors.{IsVector, InSpan, zeros};
ghost use Rattle.mm_linear.specs.Echelons.{IsEchelon, EndsAt, ZeroFrom};
ghost use Rattle.mm_linear.specs.Eliminate.{residue, cleared};
ghost use Rattle.mm_space.specs.Insertion.{IsInserted};
ghost use Rattle.mm_space.specs.JoinForms.{no_rows};
ghost use Rattle.mm_space.specs.KeyValue.{IsKeyOf};
ghost use Rattle.mm_space.specs.MarkedRows.{IsHighest, IsSupport, marked_rows};
ghost use Rattle.mm_space.specs.SpaceValue.{corner};

use crate::WIDTH;
use crate::key::Key;
use crate::rows::{Row, Rows, ZERO_ROWS};
use mm_field::{Field, lanes};
use std::marker::Model;
use std::simd::prelude::*;

/// Rows that a join works on. One value serves joins over any fields and operators, one after another.
#[derive(Drop)]
pub struct JoinRows {
    marks: u64,
    rows: Rows,
}

impl Model for JoinRows {
    ghost use Rattle.std.specs.Prelude.{ℕ, ◌<◌, ◌^◌, List};
    ghost use Rattle.mm_space.specs.MarkedRows.{marked_rows};

    ghost Value = { List (List ℕ) };

    ghost view = { λ s. marked_rows 24 s.marks s.rows };

    ghost invariant = { λ s. s.marks < 2 ^ 24 };
}

impl JoinRows {
    /// No rows.
    pub fn new() -> JoinRows
        ensures { result ≡ no_rows }
    {
        JoinRows {
            marks: 0,
            rows: ZERO_ROWS,
        }
    }

    /// Makes all rows zero.
    #[inline(always)]
    pub(crate) fn clear(&mut self)
        ensures { self.new ≡ no_rows }
    {
        self.marks = 0;
    }

    /// Adds v to what the rows span. It answers whether v was outside.
    #[inline(always)]
    pub(crate) fn insert(&mut self, f: Field, r: usize, v: &Row) -> bool
        requires narrow { r ≤ 24 }
        requires echelon { IsEchelon f 24 self.old }
        requires vector { IsVector f 24 v.now }
        requires within { ZeroFrom 24 r self.old }
        requires ends { EndsAt 24 r v.now }
        ensures inserted { IsInserted f 24 r v.now self.old self.new }
        ensures outside { result ≡ true → InSpan f 24 self.old v.now → ⊥ }
        ensures inside { result ≡ false → InSpan f 24 self.old v.now }
    {
        let rest = reduced(f, self.marks, v, &self.rows);
        let places = support(&rest);
        if places == 0 {
            return false;
        }
        let p = last(places);
        let mut w = [0; WIDTH];
        lanes::axpy(f, f.inv(rest[p]), &rest, &mut w);
        clear_column(f, self.marks, p, &w, &mut self.rows);
        self.rows[p] = w;
        self.marks |= 1 << p;
        true
    }

    /// The space of the vectors of the t by t corner, each turned round.
    #[inline(always)]
    pub(crate) fn key(&self, f: Field, t: u8) -> Key
        requires narrow { t ≤ 6 }
        requires echelon { IsEchelon f 24 self.now }
        ensures { IsKeyOf f t (map reverse (corner t self.now)) result }
    {
        Key::of_marked_corner(f, t, self.marks, &self.rows)
    }
}

/// The places of the digits other than 0, as bits.
#[inline(always)]
fn support(v: &Row) -> u64
    ensures { IsSupport v.now result }
{
    (back_support(v) << 16) | front_support(v)
}

/// The same of the first 16 digits.
#[inline(always)]
fn front_support(v: &Row) -> u64
    ensures { IsSupport (take 16 v.now) result }
{
    u8x16::from_slice(v).simd_ne(u8x16::splat(0)).to_bitmask()
}

/// The same of the other digits.
#[inline(always)]
fn back_support(v: &Row) -> u64
    ensures { IsSupport (drop 16 v.now) result }
{
    u8x8::from_slice(&v[16..])
        .simd_ne(u8x8::splat(0))
        .to_bitmask()
}

/// The last of the places that the bits show.
#[inline(always)]
fn last(places: u64) -> usize
    requires { 0 < places }
    ensures { IsHighest places result }
{
    (63 - places.leading_zeros()) as usize
}

/// v without its part along the marked rows. It is zero exactly where v is in their span.
#[inline(always)]
fn reduced(f: Field, marks: u64, v: &Row, rows: &Rows) -> Row
    requires vector { IsVector f 24 v.now }
    requires echelon { IsEchelon f 24 (marked_rows 24 marks rows.now) }
    ensures residue { result ≡ residue f 24 v.now (marked_rows 24 marks rows.now) }
    ensures vector { IsVector f 24 result }
{
    let mut out = *v;
    let mut left = marks & support(v);
    while left != 0 {
        let j = left.trailing_zeros() as usize;
        lanes::axpy(f, f.neg(v[j]), &rows[j], &mut out);
        left &= !(1 << j);
    }
    out
}

/// Takes from each marked row its part along w, which ends at p with a 1.
#[inline(always)]
fn clear_column(f: Field, marks: u64, p: usize, w: &Row, rows: &mut Rows)
    requires place { p < 24 }
    requires few { marks < 2 ^ 24 }
    requires vector { IsVector f 24 w.now }
    requires echelon { IsEchelon f 24 (marked_rows 24 marks rows.old) }
    ensures { marked_rows 24 marks rows.new ≡ map (cleared f p w.now) (marked_rows 24 marks rows.old) }
{
    let mut left = marks & (u64::MAX << p);
    while left != 0 {
        let i = left.trailing_zeros() as usize;
        let d = rows[i][p];
        if d != 0 {
            lanes::axpy(f, f.neg(d), w, &mut rows[i]);
        }
        left &= !(1 << i);
    }
}
