//! Subspaces by their reduced echelon rows.
ghost use Rattle.std.specs.Prelude.{◌≡◌, ◌≤◌, All, ◌==◌, length, nat_eq};
ghost use Rattle.std.specs.Cmp.Lexicographic.{pointwise};
ghost use Rattle.std.specs.List.{list_all};
ghost use Rattle.mm_field.specs.Vectors.{AreDigits, AreVectors};
ghost use Rattle.mm_linear.specs.ReducedEchelon.{reduced_basis};
ghost use Rattle.mm_cert_lines.specs.LineForm.{space_of};

use mm_field::Field;
use mm_space::{Gen, Key, Space, Vector};

// Whether all rows have so many digits.
fn are_of(t: u8, rows: &Gen) -> bool
    ensures { result ≡ list_all (λ v. length v == t) rows.now }
{
    for k in 0..rows.rows() {
        if rows.row(k).len() != t {
            return false;
        }
    }
    true
}

// The span of some rows.
fn span(f: Field, t: u8, rows: &Gen) -> Key
    requires narrow { t ≤ 6 }
    requires rows { AreVectors f t rows.now }
    ensures rows { result.rows ≡ reduced_basis f t rows.now }
    ensures field { result.f ≡ f }
    ensures length { result.t ≡ t }
{
    let mut space = Space::zero(f, t);
    for k in (0..rows.rows()).rev() {
        space.add_vector(&rows.row(k));
    }
    space.head(t)
}

fn is_same_row(a: &Vector, b: &Vector) -> bool
    ensures { result ≡ pointwise nat_eq a.now b.now }
{
    if a.len() != b.len() {
        return false;
    }
    for k in 0..a.len() {
        if a.at(k) != b.at(k) {
            return false;
        }
    }
    true
}

fn are_same_rows(a: &Gen, b: &Gen) -> bool
    ensures { result ≡ pointwise (pointwise nat_eq) a.now b.now }
{
    if a.rows() != b.rows() {
        return false;
    }
    for k in 0..a.rows() {
        if !is_same_row(&a.row(k), &b.row(k)) {
            return false;
        }
    }
    true
}

/// The subspace of F^t of which these are the reduced echelon rows. None where they are those of none.
#[tactic(auto, unfolding(crate::specs::LineForm::is_basis))]
pub(crate) fn key_of_rows(f: Field, t: u32, rows: &Gen) -> Option<Key>
    requires { All (λ v. AreDigits f v) rows.now }
    ensures { result ≡ space_of f t rows.now }
{
    if t > 6 || !are_of(t as u8, rows) {
        return None;
    }
    let key = span(f, t as u8, rows);
    if are_same_rows(&key.basis(f), rows) {
        return Some(key);
    }
    None
}
