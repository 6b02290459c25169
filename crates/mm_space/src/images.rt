//! The loops of images and preimages, on kept rows.
#![tactic(auto)]

ghost use Rattle.std.specs.Prelude.{◌≡◌, ◌<◌, ◌≤◌, ◌+◌, ◌++◌, [], length, map, replicate, take, slice_index_or};
ghost use Rattle.mm_field.specs.Vectors.{AreVectors, SameRowSpace, combination, zeros};
ghost use Rattle.mm_linear.specs.Coordinates.{unit};
ghost use Rattle.mm_linear.specs.Padded.{padded};
ghost use Rattle.mm_space.specs.Insertion.{IsHeld};
ghost use Rattle.mm_space.specs.Preimages.{tagged_rows};
ghost use Rattle.mm_space.specs.Images.{wide_images};

use crate::generator::Gen;
use crate::key::Key;
use crate::rows::{Row, Rows, insert, reduced};
use crate::{MAX_DIGITS, MAX_ROWS, WIDTH};
use mm_field::{Field, lanes};

/// Makes zero rows into kept rows that span all b*G for b in the key.
#[inline]
pub(crate) fn image_rows(f: Field, r: usize, key: &Key, g: &Gen, rows: &mut Rows)
    requires narrow { r ≤ 18 }
    requires field { key.now.f ≡ f }
    requires count { length g.now ≡ key.now.t }
    requires vectors { AreVectors f r g.now }
    requires zero { rows.old ≡ replicate 24 (zeros 24) }
    ensures held { IsHeld f 24 r rows.new }
    ensures span { SameRowSpace f 24 (wide_images f g.now key.now.rows) rows.new }
    ensures key_rows { AreVectors f key.now.t key.now.rows }
{
    for i in (0..key.rank()).rev() {
        insert(f, r, rows, &times(f, key, i, g));
    }
}

// Basis row i of the key times g.
#[inline]
fn times(f: Field, key: &Key, i: u8, g: &Gen) -> Row
    requires field { key.now.f ≡ f }
    requires row { i < length key.now.rows }
    requires count { length g.now ≡ key.now.t }
    requires rows { AreVectors f 24 (map (padded 24) g.now) }
    ensures { result ≡ combination f 24 (slice_index_or key.now.rows i []) (map (padded 24) g.now) }
{
    let mut out = [0; WIDTH];
    for j in (0..key.t()).rev() {
        lanes::axpy(f, key.at(i, j), g.stored(j), &mut out);
    }
    out
}

/// Makes zero rows into echelon rows of what is left of the rows of g beside a space, each with its tag before it. For
/// coefficients b they hold b turned round and, from place 6 on, what is left of b*G: so b*G is in the space exactly where b
/// turned round, with zeros after it, is in their span.
#[inline]
pub(crate) fn residue_rows(f: Field, r: usize, space: &Rows, g: &Gen, t: u8, all: &mut Rows)
    requires narrow { t ≤ 6 }
    requires kept { IsHeld f 24 r space.now }
    requires short { r ≤ 18 }
    requires count { length g.now ≡ t }
    requires vectors { AreVectors f r g.now }
    requires zero { all.old ≡ replicate 24 (zeros 24) }
    ensures held { IsHeld f 24 (6 + r) all.new }
    ensures span { SameRowSpace f 24 (tagged_rows f t g.now space.now) all.new }
{
    for i in (0..t).rev() {
        let rest = reduced(f, r, g.stored(i), space);
        let row = tagged(&rest, (t - 1 - i) as usize);
        insert(f, MAX_ROWS as usize + r, all, &row);
    }
}

// A 1 at the place, and x from place 6 on.
#[inline]
fn tagged(x: &Row, place: usize) -> Row
    requires { place < 6 }
    ensures { result ≡ unit 6 place ++ take 18 x.now }
{
    let mut out = [0; WIDTH];
    out[place] = 1;
    for k in 0..MAX_DIGITS as usize {
        out[MAX_ROWS as usize + k] = x[k];
    }
    out
}
