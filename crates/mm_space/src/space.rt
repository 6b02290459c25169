//! A subspace of F^r, r at most 18: spans, sums, images.
#![tactic(auto)]

ghost use Rattle.std.specs.Prelude.{◌≡◌, ◌<◌, ◌≤◌, ◌↔◌, ◌++◌, ◌∷◌, [], ℕ, List, IsTrue, length, map, IfSome};
ghost use Rattle.std.specs.List.{range_with_len};
ghost use Rattle.mm_field.specs.Vectors.{AreDigits, AreVectors, InSpan, times_matrix};
ghost use Rattle.mm_linear.specs.Sums.{InSum};
ghost use Rattle.mm_linear.specs.Sums.{MeetTrivially};
ghost use Rattle.mm_linear.specs.Coordinates.{unit};
ghost use Rattle.mm_space.specs.Preimages.{IsHead, IsPreimage};
ghost use Rattle.mm_space.specs.SpaceValue.{SpaceValue, IsIn, IsImage, IsSpanOf, HaveSameVectors};

use crate::WIDTH;
use crate::generator::Gen;
use crate::images::{image_rows, residue_rows};
use crate::key::Key;
use crate::rows::{Rows, ZERO_ROWS, holds, insert, insert_all, meet_in_zero};
use crate::vector::Vector;
use mm_field::Field;
use std::marker::Model;

/// A subspace of F^r, r at most 18. Contracts see it as its field, r and reduced echelon rows, so two values of one field
/// are equal exactly where r is equal and the same vectors are in them.
#[derive(Clone, Copy, PartialEq, Eq, Hash, Debug)]
pub struct Space {
    field: Field,
    r: u8,
    rows: Rows,
}

impl Model for Space {
    ghost use Rattle.std.specs.Prelude.{ℕ, List};
    ghost use Rattle.mm_space.specs.SpaceValue.{SpaceValue, corner};

    ghost Value = { SpaceValue };

    ghost use Rattle.mm_space.specs.SpaceView.{IsKept, kept_rows};
    ghost use Rattle.std.proofs.Common.{ap};

    ghost view = { λ s. record { f = s.field; r = s.r; rows = corner s.r s.rows } };

    ghost invariant = { IsKept };

    ghost inverse = { λ v. record { field = v.f; r = v.r; rows = kept_rows v.rows } };

    ghost inverse_ok = { λ a h. ap (λ rows. record { field = a.field; r = a.r; rows = rows }) h.back };
}

impl Space {
    /// The law that two spaces of one field are equal exactly where r is equal and the same vectors are in them.
    pub fn equal_by_vectors(&self, other: &Space)
        requires { other.now.f ≡ self.now.f }
        ensures { (self.now ≡ other.now) ↔ ((other.now.r ≡ self.now.r) × HaveSameVectors self.now other.now) }
    {
        let _ = (self.r, other.r);
    }

    /// The zero space of F^r.
    pub fn zero(f: Field, r: u8) -> Space
        requires { r ≤ 18 }
        ensures { IsSpanOf f r [] result }
    {
        Space {
            field: f,
            r,
            rows: ZERO_ROWS,
        }
    }

    /// Makes the space its span with v.
    pub fn add_vector(&mut self, v: &Vector)
        requires same_length { length v.now ≡ self.old.r }
        requires digits { AreDigits self.old.f v.now }
        ensures { IsSpanOf self.old.f self.old.r (v.now ∷ self.old.rows) self.new }
    {
        insert(self.field, self.r as usize, &mut self.rows, v.stored());
    }

    /// Whether v is in the space.
    pub fn contains(&self, v: &Vector) -> bool
        requires same_length { length v.now ≡ self.now.r }
        requires digits { AreDigits self.now.f v.now }
        ensures { IsTrue result ↔ IsIn self.now v.now }
    {
        holds(self.field, self.r as usize, &self.rows, v.stored())
    }

    /// All sums of a vector of self and a vector of other.
    pub fn sum(&self, other: &Space) -> Space
        requires field { other.now.f ≡ self.now.f }
        requires length { other.now.r ≡ self.now.r }
        ensures span { IsSpanOf self.now.f self.now.r (self.now.rows ++ other.now.rows) result }
        ensures sums { (z : List ℕ) → IsIn result z ↔ InSum self.now.f (IsIn self.now) (IsIn other.now) z }
    {
        let mut all = *self;
        insert_all(self.field, self.r as usize, &mut all.rows, &other.rows);
        all
    }

    /// Whether the zero vector alone is in both spaces.
    pub fn meets_only_in_zero(&self, other: &Space) -> bool
        requires field { other.now.f ≡ self.now.f }
        requires length { other.now.r ≡ self.now.r }
        ensures { IsTrue result ↔
            MeetTrivially self.now.r (InSpan self.now.f self.now.r self.now.rows) (InSpan self.now.f self.now.r other.now.rows) }
    {
        meet_in_zero(self.field, self.r as usize, &self.rows, &other.rows)
    }

    /// All b*G for b in the key.
    pub fn image(f: Field, key: &Key, g: &Gen, r: u8) -> Space
        requires narrow { r ≤ 18 }
        requires field { key.now.f ≡ f }
        requires count { length g.now ≡ key.now.t }
        requires rows { AreVectors f r g.now }
        ensures span { IsSpanOf f r (map (times_matrix f r g.now) key.now.rows) result }
        ensures images { (z : List ℕ) → IsIn result z ↔ IsImage f key.now.t r key.now.rows g.now z }
    {
        let mut space = Space {
            field: f,
            r,
            rows: ZERO_ROWS,
        };
        image_rows(f, r as usize, key, g, &mut space.rows);
        space
    }

    /// All b of F^t3 such that b followed by zeros is in the space.
    pub fn head(&self, t3: u8) -> Key
        requires narrow { t3 ≤ 6 }
        requires inside { t3 ≤ self.now.r }
        ensures { IsHead self.now t3 result }
    {
        self.preimage(&first_units(t3, self.r), t3)
    }

    /// All b of F^t3 such that b*G is in the space.
    pub fn preimage(&self, g: &Gen, t3: u8) -> Key
        requires narrow { t3 ≤ 6 }
        requires count { length g.now ≡ t3 }
        requires rows { AreVectors self.now.f self.now.r g.now }
        ensures { IsPreimage self.now g.now t3 result }
    {
        let mut all = ZERO_ROWS;
        residue_rows(self.field, self.r as usize, &self.rows, g, t3, &mut all);
        Key::of_corner(self.field, t3, &all)
    }
}

/// The first t unit vectors of F^r.
pub fn first_units(t: u8, r: u8) -> Gen
    requires narrow { t ≤ 6 }
    requires inside { t ≤ r }
    requires short { r ≤ 18 }
    ensures { result ≡ map (unit r) (range_with_len 0 t) }
{
    let mut rows = Gen::none();
    for k in 0..t {
        let mut digits = [0; WIDTH];
        digits[k as usize] = 1;
        rows.push(Vector::of(r, digits));
    }
    rows
}
