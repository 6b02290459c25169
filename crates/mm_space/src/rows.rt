//! Elimination on square echelon rows.
//!
//! A space is kept as 24 rows of 24 digits, read from the right: row i is all zero, or has its last digit other than 0 at
//! place i, where it is 1 and every other row has 0. So a vector of the space has its own digits as coefficients: digit i
//! tells how often row i goes into it, and nothing is solved for. Where all digits from place r on are 0, work stops at r.
#![tactic(auto)]

ghost use Rattle.std.specs.Prelude.{◌≡◌, ◌≢◌, ◌<◌, ◌≤◌, ◌↔◌, ℕ, ◌∷◌, ◌++◌, length, map, slice_index, IfSome, IfNone, IsTrue, true, false};
ghost use Rattle.mm_field.specs.Digits.{order};
ghost use Rattle.mm_field.specs.Vectors.{IsVector, AreVectors, InSpan, SameRowSpace, zeros};
ghost use Rattle.mm_linear.specs.Echelons.{IsEchelon, EndsAt, ZeroFrom};
ghost use Rattle.mm_linear.specs.Eliminate.{residue, cleared};
ghost use Rattle.mm_linear.specs.Sums.{MeetTrivially};
ghost use Rattle.mm_space.specs.Insertion.{IsHeld, IsInserted};

use crate::WIDTH;
use mm_field::{Elt, Field, lanes};

/// A vector, with zeros from some place on.
pub(crate) type Row = [u8; WIDTH];

/// Square echelon rows, or the zero rows.
pub(crate) type Rows = [Row; WIDTH];

/// No rows: the zero space.
pub(crate) const ZERO_ROWS: Rows = [[0; WIDTH]; WIDTH];

/// v without its part along the rows. It is zero exactly where v is in their span.
#[inline]
pub(crate) fn reduced(f: Field, r: usize, v: &Row, rows: &Rows) -> Row
    requires narrow { r ≤ 24 }
    requires vector { IsVector f 24 v.now }
    requires ends { EndsAt 24 r v.now }
    requires echelon { IsEchelon f 24 rows.now }
    requires within { ZeroFrom 24 r rows.now }
    ensures residue { result ≡ residue f 24 v.now rows.now }
    ensures vector { IsVector f 24 result }
    ensures ends { EndsAt 24 r result }
{
    let mut out = *v;
    for j in 0..r {
        if rows[j][j] != 0 {
            lanes::axpy(f, f.neg(v[j]), &rows[j], &mut out);
        }
    }
    out
}

/// The last place of a digit other than 0.
#[inline]
pub(crate) fn last_nonzero(r: usize, x: &Row) -> Option<usize>
    requires narrow { r ≤ 24 }
    requires ends { EndsAt 24 r x.now }
    ensures found { IfSome result (λ p. (p < r) × (slice_index x.now p ≢ 0)) }
    ensures last { IfSome result (λ p. (k : ℕ) → p < k → k < 24 → slice_index x.now k ≡ 0) }
    ensures none { IfNone result (x.now ≡ zeros 24) }
{
    for i in (0..r).rev() {
        if x[i] != 0 {
            return Some(i);
        }
    }
    None
}

/// Takes from each row its part along w, which ends at p with a 1.
#[inline]
fn clear_all(f: Field, r: usize, p: usize, w: &Row, rows: &mut Rows)
    requires place { p < r }
    requires narrow { r ≤ 24 }
    requires vector { IsVector f 24 w.now }
    requires echelon { IsEchelon f 24 rows.old }
    requires within { ZeroFrom 24 r rows.old }
    ensures { rows.new ≡ map (cleared f p w.now) rows.old }
{
    for i in p..r {
        let d = rows[i][p];
        if d != 0 {
            lanes::axpy(f, f.neg(d), w, &mut rows[i]);
        }
    }
}

/// Adds v to what the rows span. It answers whether v was outside.
#[inline]
pub(crate) fn insert(f: Field, r: usize, rows: &mut Rows, v: &Row) -> bool
    requires narrow { r ≤ 24 }
    requires echelon { IsEchelon f 24 rows.old }
    requires vector { IsVector f 24 v.now }
    requires within { ZeroFrom 24 r rows.old }
    requires ends { EndsAt 24 r v.now }
    ensures inserted { IsInserted f 24 r v.now rows.old rows.new }
    ensures outside { result ≡ true → InSpan f 24 rows.old v.now → ⊥ }
    ensures inside { result ≡ false → InSpan f 24 rows.old v.now }
{
    let mut w = reduced(f, r, v, rows);
    match last_nonzero(r, &w) {
        Some(p) => {
            let c = f.inv(w[p]);
            lanes::scale(f, c, &mut w);
            clear_all(f, r, p, &w, rows);
            rows[p] = w;
            true
        }
        None => false,
    }
}

/// Whether v is in the span of the rows.
#[inline]
pub(crate) fn holds(f: Field, r: usize, rows: &Rows, v: &Row) -> bool
    requires narrow { r ≤ 24 }
    requires echelon { IsEchelon f 24 rows.now }
    requires vector { IsVector f 24 v.now }
    requires within { ZeroFrom 24 r rows.now }
    requires ends { EndsAt 24 r v.now }
    ensures { IsTrue result ↔ InSpan f 24 rows.now v.now }
{
    last_nonzero(r, &reduced(f, r, v, rows)).is_none()
}

/// Adds all of more to what the rows span.
#[inline]
pub(crate) fn insert_all(f: Field, r: usize, rows: &mut Rows, more: &Rows)
    requires rows_held { IsHeld f 24 r rows.old }
    requires more_held { IsHeld f 24 r more.now }
    ensures held { IsHeld f 24 r rows.new }
    ensures span { SameRowSpace f 24 (more.now ++ rows.old) rows.new }
{
    for i in (0..r).rev() {
        if more[i][i] != 0 {
            insert(f, r, rows, &more[i]);
        }
    }
}

/// Whether the zero vector alone is in the span of the rows and in that of more.
#[inline]
pub(crate) fn meet_in_zero(f: Field, r: usize, rows: &Rows, more: &Rows) -> bool
    requires rows_held { IsHeld f 24 r rows.now }
    requires more_held { IsHeld f 24 r more.now }
    ensures { IsTrue result ↔ MeetTrivially 24 (InSpan f 24 rows.now) (InSpan f 24 more.now) }
{
    let mut all = *rows;
    for i in (0..r).rev() {
        if more[i][i] != 0 {
            if !insert(f, r, &mut all, &more[i]) {
                return false;
            }
        }
    }
    true
}
