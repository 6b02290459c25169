//! The join of two boundary spaces by one elimination.
//!
//! Each row x of G1 and of G2 is kept in its normal form: the multiples of rows of G3 that it holds are taken off and written
//! down as tags before it. So a combination of these rows that is zero but for its tags tells which b has b*G3 in the sum of
//! the images, and elimination from the right finds all of them.

ghost use Rattle.std.specs.Prelude.{◌≡◌, ◌<◌, ◌≤◌, ◌+◌, ◌-◌, ◌*◌, ◌/◌, ◌%◌, ◌^◌, ◌++◌, [], length, map, take, slice_index_or, All, true, false, replicate};
ghost use Rattle.mm_field.specs.Vectors.{AreVectors, AreIndependent, InSpan, SameRowSpace, combination, zeros};
ghost use Rattle.mm_linear.specs.Echelons.{EndsAt};
ghost use Rattle.mm_linear.specs.Sums.{MeetTrivially};
ghost use Rattle.mm_space.specs.Insertion.{IsHeld};
ghost use Rattle.mm_space.specs.JoinForms.{IsApartFrom, Joins, form_images, no_rows, normal};
ghost use Rattle.mm_space.specs.KeyView.{IsReduced};

use crate::generator::Gen;
use crate::images::residue_rows;
use crate::join_rows::JoinRows;
use crate::key::Key;
use crate::rows::{Row, Rows, ZERO_ROWS, reduced};
use crate::{MAX_DIGITS, MAX_ROWS, WIDTH};
use mm_field::{Elt, Field, lanes};
use std::marker::Model;

/// The rows of a matrix, and zero rows.
type FormRows = [Row; MAX_ROWS as usize];

/// The matrices G1, G2 and G3 of an operator, kept so that one elimination joins two keys.
#[derive(Clone, Copy)]
#[derive_where(PartialEq, Eq, Hash, Debug)]
pub struct JoinForm {
    field: Field,
    r: u8,
    g1: Gen,
    g2: Gen,
    g3: Gen,
    // The rows of G1 and of G2 in their normal form, which follow from the matrices.
    #[derive_where(skip)]
    first: FormRows,
    #[derive_where(skip)]
    second: FormRows,
}

impl Model for JoinForm {
    ghost use Rattle.std.proofs.Common.{ap₂};
    ghost use Rattle.mm_space.specs.JoinForms.{FormValue};
    ghost use Rattle.mm_space.specs.FormView.{value_of, inside_of, IsFormed};

    ghost Value = { FormValue };

    ghost view = { value_of };

    ghost invariant = { IsFormed };

    ghost inverse = { inside_of };

    ghost inverse_ok = { λ a h. ap₂ (λ x y. record { field = a.field; r = a.r; g1 = a.g1; g2 = a.g2; g3 = a.g3; first = x; second = y }) h.first_is h.second_is };
}

impl JoinForm {
    /// The form of three matrices with rows of r digits.
    pub fn new(f: Field, r: u8, g1: Gen, g2: Gen, g3: Gen) -> JoinForm
        requires narrow { r ≤ 18 }
        requires few1 { length g1 ≤ 6 }
        requires few2 { length g2 ≤ 6 }
        requires few3 { length g3 ≤ 6 }
        requires first { AreVectors f r g1 }
        requires second { AreVectors f r g2 }
        requires third { AreVectors f r g3 }
        requires independent { AreIndependent f r g2 }
        requires third_independent { AreIndependent f r g3 }
        ensures { result ≡ record { f = f; r = r; g1 = g1; g2 = g2; g3 = g3 } }
    {
        let mut held = ZERO_ROWS;
        residue_rows(f, r as usize, &ZERO_ROWS, &g3, g3.rows(), &mut held);
        JoinForm {
            field: f,
            r,
            g1,
            g2,
            g3,
            first: normal_rows(f, r as usize, &held, &g1),
            second: normal_rows(f, r as usize, &held, &g2),
        }
    }

    /// The field of the digits.
    #[inline]
    pub fn field(&self) -> Field
        ensures { result ≡ self.now.f }
    {
        self.field
    }

    /// Where the boundary of the left part lies.
    #[inline]
    pub fn g1(&self) -> &Gen
        ensures { result.now ≡ self.now.g1 }
    {
        &self.g1
    }

    /// Where the boundary of the right part lies.
    #[inline]
    pub fn g2(&self) -> &Gen
        ensures { result.now ≡ self.now.g2 }
    {
        &self.g2
    }

    /// Where the boundary of the join lies.
    #[inline]
    pub fn g3(&self) -> &Gen
        ensures { result.now ≡ self.now.g3 }
    {
        &self.g3
    }

    /// The key of all b such that b*G3 is in the sum of the images of both keys: of all b*G1 for b in the left one, and all b*G2
    /// for b in the right one. None exactly where a vector other than zero is in both images. The rows are room to work in, and
    /// what they held before does not matter.
    pub fn join(&self, left: &Key, right: &Key, rows: &mut JoinRows) -> Option<Key>
        requires left_field { left.now.f ≡ self.now.f }
        requires right_field { right.now.f ≡ self.now.f }
        requires left_length { left.now.t ≡ length self.now.g1 }
        requires right_length { right.now.t ≡ length self.now.g2 }
        ensures { Joins self.now left.now right.now result }
    {
        match self.field {
            Field::Two => self.join_over(Field::Two, left, right, rows),
            Field::Three => self.join_over(Field::Three, left, right, rows),
            Field::Four => self.join_over(Field::Four, left, right, rows),
            Field::Five => self.join_over(Field::Five, left, right, rows),
        }
    }

    // The same, made for one field at a time.
    #[inline(always)]
    fn join_over(&self, f: Field, left: &Key, right: &Key, rows: &mut JoinRows) -> Option<Key>
        requires field { f ≡ self.now.f }
        requires left_field { left.now.f ≡ f }
        requires right_field { right.now.f ≡ f }
        requires left_length { left.now.t ≡ length self.now.g1 }
        requires right_length { right.now.t ≡ length self.now.g2 }
        ensures { Joins self.now left.now right.now result }
    {
        let width = (MAX_ROWS + self.r) as usize;
        rows.clear();
        insert_images(f, width, left, &self.first, rows);
        if insert_apart(f, width, right, &self.second, rows) {
            Some(rows.key(f, self.g3.rows()))
        } else {
            None
        }
    }
}

// The rows of g in their normal form beside the held rows, and zero rows after them.
fn normal_rows(f: Field, r: usize, held: &Rows, g: &Gen) -> FormRows
    requires short { r ≤ 18 }
    requires few { length g.now ≤ 6 }
    requires held { IsHeld f 24 (6 + r) held.now }
    requires vectors { AreVectors f r g.now }
    ensures { result ≡ map (normal f r held.now) g.now ++ replicate (6 - length g.now) (zeros 24) }
{
    let mut out = [[0; WIDTH]; MAX_ROWS as usize];
    for i in 0..g.rows() {
        let row = moved_row(g.stored(i));
        out[i as usize] = reduced(f, MAX_ROWS as usize + r, &row, held);
    }
    out
}

// x from place 6 on.
fn moved_row(x: &Row) -> Row
    ensures { result ≡ zeros 6 ++ take 18 x.now }
{
    let mut out = [0; WIDTH];
    for k in 0..MAX_DIGITS as usize {
        out[MAX_ROWS as usize + k] = x[k];
    }
    out
}

// Basis row i of the key times the rows.
#[inline(always)]
fn times_rows(f: Field, key: &Key, i: u8, form: &FormRows) -> Row
    requires field { key.now.f ≡ f }
    requires row { i < length key.now.rows }
    requires vectors { AreVectors f 24 (take key.now.t form.now) }
    ensures { result ≡ combination f 24 (slice_index_or key.now.rows i []) (take key.now.t form.now) }
{
    let digits = key.row_digits(i);
    let mut out = [0; WIDTH];
    for j in (0..key.t()).rev() {
        let d = number_of(digits, j);
        if d != 0 {
            lanes::axpy(f, d, &form[j as usize], &mut out);
        }
    }
    out
}

// Number j of those that are packed in three bits each.
#[inline(always)]
fn number_of(digits: u32, j: u8) -> Elt
    requires { j < 6 }
    ensures { result ≡ digits / 2 ^ (3 * j) % 8 }
{
    ((digits >> (3 * j)) % 8) as u8
}

// Makes zero rows into kept rows that span all rows of the key times the rows.
#[inline(always)]
fn insert_images(f: Field, width: usize, key: &Key, form: &FormRows, rows: &mut JoinRows)
    requires narrow { width ≤ 24 }
    requires field { key.now.f ≡ f }
    requires vectors { AreVectors f 24 (take key.now.t form.now) }
    requires ends { All (λ v. EndsAt 24 width v) (take key.now.t form.now) }
    requires zero { rows.old ≡ no_rows }
    ensures held { IsHeld f 24 width rows.new }
    ensures span { SameRowSpace f 24 (form_images f key.now.t form.now key.now.rows) rows.new }
    ensures key { IsReduced key.now }
{
    for i in (0..key.rank()).rev() {
        rows.insert(f, width, &times_rows(f, key, i, form));
    }
}

// Adds all rows of the key times the rows, which are independent, to kept rows. It stops, and answers no, where these spans have
// a common vector other than zero.
#[inline(always)]
fn insert_apart(f: Field, width: usize, key: &Key, form: &FormRows, rows: &mut JoinRows) -> bool
    requires narrow { width ≤ 24 }
    requires field { key.now.f ≡ f }
    requires vectors { AreVectors f 24 (take key.now.t form.now) }
    requires ends { All (λ v. EndsAt 24 width v) (take key.now.t form.now) }
    requires independent { AreIndependent f 24 (take key.now.t form.now) }
    requires held { IsHeld f 24 width rows.old }
    ensures apart { result ≡ true → IsApartFrom f 24 width rows.old (form_images f key.now.t form.now key.now.rows) 0 rows.new }
    ensures meet { result ≡ false →
        MeetTrivially 24 (InSpan f 24 rows.old) (InSpan f 24 (form_images f key.now.t form.now key.now.rows)) → ⊥ }
    ensures key { IsReduced key.now }
{
    for i in (0..key.rank()).rev() {
        if !rows.insert(f, width, &times_rows(f, key, i, form)) {
            return false;
        }
    }
    true
}
