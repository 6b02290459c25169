//! Combinations of rows, by trying all coefficients.

ghost use Rattle.std.specs.Prelude.{◌≡◌, ◌<◌, ◌==◌, ℕ, length, IfOk};
ghost use Rattle.std.specs.List.{list_all};
ghost use Rattle.mm_field.specs.Digits.{order};
ghost use Rattle.mm_field.specs.Vectors.{AreDigits, IsVector, AreVectors};
ghost use Rattle.mm_linear.specs.Coordinates as coordinates_spec;
ghost use Rattle.mm_linear.specs.Decide as decide;
ghost use Rattle.mm_reference_meaning.specs.Rows.{rows_of};

use mm_field::{Field, lanes};
use std::alloc::{AllocError, Global};

/// x less c times v.
fn minus_multiple(alloc: Global, f: Field, x: &[u8], c: u8, v: &[u8]) -> Result<Vec<u8>, AllocError>
    requires same_length { length v.now ≡ length x.now }
    requires factor { c < order f }
    requires digits_x { AreDigits f x.now }
    requires digits_v { AreDigits f v.now }
    ensures { IfOk result (λ r. (r.items ≡ coordinates_spec.minus_multiple f x.now c v.now) × IsVector f (length x.now) r.items) }
{
    let mut rest = x.to_vec(alloc)?;
    lanes::axpy(f, f.neg(c), v, &mut rest);
    Ok(rest)
}

/// Whether v is the zero vector.
pub fn is_zero(v: &[u8]) -> bool
    ensures { result ≡ list_all (λ d. d == 0) v.now }
{
    v.iter().all(|d| *d == 0)
}

/// Whether v is a combination of the rows: whether it is one of the other rows after some multiple of the first row is taken away.
pub fn in_span(alloc: Global, f: Field, rows: &[Vec<u8>], v: &[u8]) -> Result<bool, AllocError>
    requires rows { AreVectors f (length v.now) (rows_of rows.now) }
    requires vector { AreDigits f v.now }
    ensures { IfOk result (λ b. b ≡ decide.is_in_span f (length v.now) (rows_of rows.now) v.now) }
{
    match rows {
        [] => Ok(is_zero(v)),
        [first, others @ ..] => {
            for c in 0..f.q() {
                let rest = minus_multiple(alloc, f, v, c, first)?;
                if in_span(alloc, f, others, &rest)? {
                    return Ok(true);
                }
            }
            Ok(false)
        }
    }
}

/// Whether only all-zero coefficients combine the rows, of n digits each, to zero: whether no row is a combination of those after
/// it.
pub fn independent(alloc: Global, f: Field, n: usize, rows: &[Vec<u8>]) -> Result<bool, AllocError>
    requires { AreVectors f n (rows_of rows.now) }
    ensures { IfOk result (λ b. b ≡ decide.is_independent f n (rows_of rows.now)) }
{
    match rows {
        [] => Ok(true),
        [first, others @ ..] => {
            prove!(first.len() == n);
            Ok(independent(alloc, f, n, others)? && !in_span(alloc, f, others, first)?)
        }
    }
}

/// The last digit c such that v less c times the first row is a combination of the other rows, or 0.
fn first_coordinate(
    alloc: Global,
    f: Field,
    first: &[u8],
    others: &[Vec<u8>],
    v: &[u8],
) -> Result<u8, AllocError>
    requires first { AreDigits f first.now }
    requires same_length { length first.now ≡ length v.now }
    requires rows { AreVectors f (length v.now) (rows_of others.now) }
    requires vector { AreDigits f v.now }
    ensures { IfOk result (λ c. c ≡ coordinates_spec.digit_below f (length v.now) (rows_of others.now) first.now v.now (order f)) }
{
    let mut found = 0;
    for c in 0..f.q() {
        let rest = minus_multiple(alloc, f, v, c, first)?;
        if in_span(alloc, f, others, &rest)? {
            found = c;
        }
    }
    Ok(found)
}

/// Coefficients that combine the rows to v, where there are such.
pub fn coordinates(
    alloc: Global,
    f: Field,
    rows: &[Vec<u8>],
    v: &[u8],
) -> Result<Vec<u8>, AllocError>
    requires rows { AreVectors f (length v.now) (rows_of rows.now) }
    requires vector { AreDigits f v.now }
    ensures { IfOk result (λ r. r.items ≡ coordinates_spec.coordinates f (length v.now) (rows_of rows.now) v.now) }
{
    match rows {
        [] => Ok(Vec::new(alloc)),
        [first, others @ ..] => {
            let c = first_coordinate(alloc, f, first, others, v)?;
            let rest = minus_multiple(alloc, f, v, c, first)?;
            let mut found = coordinates(alloc, f, others, &rest)?;
            found.insert(0, c)?;
            Ok(found)
        }
    }
}
