//! A vector of at most 18 digits, in place.
#![tactic(auto)]

ghost use Rattle.std.specs.Prelude.{◌≡◌, ◌<◌, ◌≤◌, ◌↔◌, ℕ, List, [], ◌∷◌, IsTrue, length, slice_index, take, IfSome, IfNone};
ghost use Rattle.std.specs.Str.{bytes_eq};
ghost use Rattle.mm_linear.specs.Padded.{padded};
ghost use Rattle.mm_space.specs.VectorText.{IsVectorText};
ghost use Rattle.mm_space.specs.DigitTexts.{vector_of};
ghost use Rattle.mm_field.specs.Vectors.{AreDigits};
ghost use Rattle.mm_space.specs.StoredDigits.{ZeroAfter};

use crate::{MAX_DIGITS, WIDTH};
use mm_field::{Elt, Field};
use std::hash::{Hash, Hasher};
use std::marker::Model;

/// A vector of at most 18 digits. Contracts see it as the list of its digits.
#[derive(Clone, Copy, Debug)]
pub struct Vector {
    len: u8,
    // The digits, and then zeros.
    digits: [u8; WIDTH],
}

impl Model for Vector {
    ghost use Rattle.std.specs.Prelude.{ℕ, List, length, take};
    ghost use Rattle.mm_linear.specs.Padded.{padded};

    ghost Value = { List ℕ };

    ghost use Rattle.mm_space.specs.VectorView.{IsStored};

    ghost view = { λ a. take a.len a.digits };

    ghost invariant = { IsStored };

    ghost inverse = { λ v. record { len = length v; digits = padded 24 v } };

    ghost inverse_ok = { λ a h. h.back };
}

impl PartialEq for Vector {
    ghost use Rattle.std.specs.Str.{bytes_eq};
    ghost use Rattle.std.specs.Cmp.{partial_equiv_from_equiv};
    ghost use Rattle.std.proofs.lemmas.Cmp.{nat_list_eq_equiv};

    ghost eq = { bytes_eq };

    ghost laws = { partial_equiv_from_equiv nat_list_eq_equiv };

    #[inline(always)]
    fn eq(&self, other: &Self) -> bool {
        self.len == other.len && are_equal(&self.digits, &other.digits)
    }
}

impl Eq for Vector {
    ghost use Rattle.std.proofs.lemmas.Cmp.{nat_list_eq_equiv};

    ghost laws = { nat_list_eq_equiv };
}

impl Hash for Vector {
    ghost use Rattle.std.specs.Prelude.{[], ◌∷◌};
    ghost use Rattle.mm_space.specs.Hashing.{same_digits_fed};

    ghost hash_input = { λ v. v ∷ [] };

    ghost respects_eq = { same_digits_fed };

    #[inline(always)]
    fn hash<H: Hasher>(&self, state: &mut H) {
        state.write(&self.digits[..self.len as usize]);
    }
}

impl Vector {
    /// The vector that the bytes write: `-` for no digits, else 1 to 18 ASCII digits of the field. None exactly where the
    /// bytes write no vector.
    pub fn read(f: Field, bytes: &[u8]) -> Option<Vector>
        ensures exact { result ≡ vector_of f bytes.now }
        ensures digits { IfSome result (λ v. AreDigits f v) }
    {
        if is_byte(bytes, b'-') {
            return Some(Vector::none());
        }
        if bytes.is_empty() || bytes.len() > MAX_DIGITS as usize {
            return None;
        }
        Vector::read_digits(f, bytes)
    }

    // The vector of the digits that the bytes show.
    fn read_digits(f: Field, bytes: &[u8]) -> Option<Vector>
        requires some { 0 < length bytes.now }
        requires short { length bytes.now ≤ 18 }
        requires no_dash { bytes.now ≡ 45 ∷ [] → ⊥ }
        ensures text { IfSome result (λ v. IsVectorText f v bytes.now) }
        ensures none { IfNone result ((v : List ℕ) → IsVectorText f v bytes.now → ⊥) }
    {
        let mut digits = [0; WIDTH];
        for i in 0..bytes.len() {
            match f.digit(bytes[i]) {
                Some(d) => digits[i] = d,
                None => return None,
            }
        }
        Some(Vector::of(bytes.len() as u8, digits))
    }

    /// How many digits the vector has.
    #[inline]
    pub fn len(&self) -> u8
        ensures { result ≡ length self.now }
    {
        self.len
    }

    /// Digit k, counted from 0.
    #[inline]
    pub fn at(&self, k: u8) -> Elt
        requires { k < length self.now }
        ensures { result ≡ slice_index self.now k }
    {
        self.digits[k as usize]
    }

    // The vector of no digits.
    pub(crate) fn none() -> Vector
        ensures { result ≡ [] }
    {
        Vector::of(0, [0; WIDTH])
    }

    // The digits, with zeros after them.
    #[inline]
    pub(crate) fn stored(&self) -> &[u8; WIDTH]
        ensures { result.now ≡ padded 24 self.now }
    {
        &self.digits
    }

    // The vector of the first digits of an array that has zeros after them.
    #[inline]
    pub(crate) fn of(len: u8, digits: [u8; WIDTH]) -> Vector
        requires short { len ≤ 18 }
        requires size { length digits ≡ 24 }
        requires zeros { ZeroAfter len digits }
        ensures { result ≡ take len digits }
    {
        Vector { len, digits }
    }
}

// Whether two arrays are equal: without a branch, so that the compiler can work on many digits at once.
#[inline(always)]
fn are_equal(a: &[u8; WIDTH], b: &[u8; WIDTH]) -> bool
    ensures { result ≡ bytes_eq a.now b.now }
{
    let mut difference = 0;
    for k in 0..WIDTH {
        difference |= a[k] ^ b[k];
    }
    difference == 0
}

// Whether the bytes are b alone.
#[inline]
pub(crate) fn is_byte(bytes: &[u8], b: u8) -> bool
    ensures { IsTrue result ↔ (bytes.now ≡ b ∷ []) }
{
    bytes.len() == 1 && bytes[0] == b
}
