//! At most six vectors, in place.
#![tactic(auto)]

ghost use Rattle.std.specs.Prelude.{◌≡◌, ◌≢◌, ◌<◌, ◌≤◌, ◌+◌, ◌↔◌, ℕ, List, [], ◌∷◌, ◌++◌, IsTrue, length, slice_index, slice_index_or, take, drop, IfSome, IfNone, All};
ghost use Rattle.mm_linear.specs.Padded.{padded};
ghost use Rattle.mm_space.specs.VectorText.{IsGenText};
ghost use Rattle.mm_space.specs.DigitTexts.{vectors_of};
ghost use Rattle.mm_field.specs.Vectors.{AreDigits};

use crate::MAX_ROWS;
use crate::rows::Row;
use crate::vector::{Vector, is_byte};
use mm_field::Field;
use std::hash::{Hash, Hasher};
use std::marker::Model;

/// At most six vectors, the rows of a matrix. Contracts see it as the list of its rows.
#[derive(Clone, Copy, Debug)]
pub struct Gen {
    count: u8,
    // The rows, and then empty vectors.
    kept: [Vector; MAX_ROWS as usize],
}

impl Model for Gen {
    ghost use Rattle.std.specs.Prelude.{ℕ, ◌-◌, List, [], ◌++◌, length, take, replicate};

    ghost Value = { List (List ℕ) };

    ghost use Rattle.mm_space.specs.GenView.{IsStored};

    ghost view = { λ g. take g.count g.kept };

    ghost invariant = { IsStored };

    ghost inverse = { λ v. record { count = length v; kept = v ++ replicate (6 - length v) [] } };

    ghost inverse_ok = { λ a h. h.back };
}

impl PartialEq for Gen {
    ghost use Rattle.std.specs.Str.{bytes_eq};
    ghost use Rattle.std.specs.Cmp.{partial_equiv_from_equiv};
    ghost use Rattle.std.specs.Cmp.Lexicographic.{pointwise, lists_per};
    ghost use Rattle.std.proofs.lemmas.Cmp.{nat_list_eq_equiv};

    ghost eq = { pointwise bytes_eq };

    ghost laws = { lists_per (partial_equiv_from_equiv nat_list_eq_equiv) };

    #[inline(always)]
    fn eq(&self, other: &Self) -> bool {
        if self.count != other.count {
            return false;
        }
        for k in 0..self.count as usize {
            if self.kept[k] != other.kept[k] {
                return false;
            }
        }
        true
    }
}

impl Eq for Gen {
    ghost use Rattle.std.specs.Cmp.Lexicographic.{lists_equiv};
    ghost use Rattle.std.proofs.lemmas.Cmp.{nat_list_eq_equiv};

    ghost laws = { lists_equiv nat_list_eq_equiv };
}

impl Hash for Gen {
    ghost use Rattle.std.specs.Prelude.{[], ◌∷◌};
    ghost use Rattle.std.specs.Hash as fed;
    ghost use Rattle.mm_space.specs.Hashing.{same_rows_fed};

    ghost hash_input = { fed.slice (λ v. v ∷ []) };

    ghost respects_eq = { same_rows_fed };

    fn hash<H: Hasher>(&self, state: &mut H) {
        let rows: &[Vector] = &self.kept[..self.count as usize];
        rows.hash(state);
    }
}

impl Gen {
    /// The rows that the bytes write: `.` for none, else 1 to 6 vectors, as `Vector::read` reads them, joined by `/`. None
    /// exactly where the bytes write no rows.
    pub fn read(f: Field, bytes: &[u8]) -> Option<Gen>
        ensures exact { result ≡ vectors_of f bytes.now }
        ensures digits { IfSome result (λ rows. All (λ v. AreDigits f v) rows) }
    {
        if is_byte(bytes, b'.') {
            return Some(Gen::none());
        }
        Gen::read_rows(f, bytes)
    }

    // The rows of bytes that are not `.`, up to each `/` and then to the end.
    fn read_rows(f: Field, bytes: &[u8]) -> Option<Gen>
        requires { bytes.now ≡ 46 ∷ [] → ⊥ }
        ensures text { IfSome result (λ rows. IsGenText f rows bytes.now) }
        ensures none { IfNone result ((rows : List (List ℕ)) → IsGenText f rows bytes.now → ⊥) }
    {
        let mut rows = Gen::none();
        let mut rest = bytes;
        for k in 0..MAX_ROWS {
            match slash(rest) {
                Some(p) => {
                    match Vector::read(f, front(rest, p)) {
                        Some(v) => rows.push(v),
                        None => return None,
                    }
                    rest = back(rest, p);
                }
                None => {
                    match Vector::read(f, rest) {
                        Some(v) => rows.push(v),
                        None => return None,
                    }
                    return Some(rows);
                }
            }
        }
        None
    }

    /// How many rows there are.
    #[inline]
    pub fn rows(&self) -> u8
        ensures { result ≡ length self.now }
    {
        self.count
    }

    /// Row k, counted from 0.
    #[inline]
    pub fn row(&self, k: u8) -> Vector
        requires { k < length self.now }
        ensures { result ≡ slice_index_or self.now k [] }
    {
        self.kept[k as usize]
    }

    // The digits of row k, with zeros after them.
    #[inline]
    pub(crate) fn stored(&self, k: u8) -> &Row
        requires { k < length self.now }
        ensures { result.now ≡ padded 24 (slice_index_or self.now k []) }
    {
        self.kept[k as usize].stored()
    }

    // No rows.
    pub(crate) fn none() -> Gen
        ensures { result ≡ [] }
    {
        Gen {
            count: 0,
            kept: [Vector::none(); MAX_ROWS as usize],
        }
    }

    // One row more.
    pub(crate) fn push(&mut self, v: Vector)
        requires { length self.old < 6 }
        ensures { self.new ≡ self.old ++ v ∷ [] }
    {
        self.kept[self.count as usize] = v;
        self.count += 1;
    }
}

// The place of the first `/`.
fn slash(bytes: &[u8]) -> Option<usize>
    ensures found { IfSome result (λ p. (p < length bytes.now) × (slice_index bytes.now p ≡ 47)) }
    ensures first { IfSome result (λ p. (k : ℕ) → k < p → slice_index bytes.now k ≢ 47) }
    ensures none { IfNone result ((k : ℕ) → k < length bytes.now → slice_index bytes.now k ≢ 47) }
{
    for i in 0..bytes.len() {
        if bytes[i] == b'/' {
            return Some(i);
        }
    }
    None
}

// The bytes before place p.
fn front(bytes: &[u8], p: usize) -> &[u8]
    requires { p < length bytes.now }
    ensures { result.now ≡ take p bytes.now }
{
    &bytes[..p]
}

// The bytes after place p.
fn back(bytes: &[u8], p: usize) -> &[u8]
    requires { p < length bytes.now }
    ensures { result.now ≡ drop (p + 1) bytes.now }
{
    &bytes[p + 1..]
}
