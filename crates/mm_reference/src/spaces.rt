//! The boundary space of a set of elements, by trying all vectors.

ghost use Rattle.std.specs.Prelude.{◌≡◌, ◌<◌, ◌+◌, ◌++◌, ◌∷◌, ℕ, true, false, [], length, map, flat_map, filter, slice_index_or, All, IfOk, IfSome, IfNone};
ghost use Rattle.std.specs.List.{range_with_len};
ghost use Rattle.mm_field.specs.Digits.{order};
ghost use Rattle.mm_field.specs.Vectors.{zeros, AreDigits, AreVectors};
ghost use Rattle.mm_linear.specs.Decide.{is_in_span};
ghost use Rattle.mm_linear.specs.Subspaces as subspaces;
ghost use Rattle.mm_logic.specs.BoundarySpaces as boundary_spaces;
ghost use Rattle.mm_reference_meaning.specs.Rows.{rows_of};
ghost use Rattle.mm_reference.specs.Spaces as spaces;
ghost use Rattle.mm_reference.specs.Spaces.{HasLead, IsClearOf, IsClearOfAll, IsReducedAt};

use mm_field::Field;
use mm_reference_meaning::{in_span, is_zero, push_zeros};
use std::alloc::{AllocError, Global};

/// Whether the first digit of a row other than 0 is a 1 at place k.
fn has_lead(row: &[u8], k: usize) -> bool
    requires { k < length row.now }
    ensures yes { result ≡ true → HasLead k row.now }
    ensures no { result ≡ false → HasLead k row.now → ⊥ }
{
    is_zero(&row[..k]) && row[k] == 1
}

/// Whether a row has 0 where a vector of as many digits has its lead, if that is after place k.
fn is_clear_of(row: &[u8], k: usize, vector: &[u8]) -> bool
    requires place { k < length row.now }
    requires same_length { length vector.now ≡ length row.now }
    ensures yes { result ≡ true → IsClearOf k row.now vector.now }
    ensures no { result ≡ false → IsClearOf k row.now vector.now → ⊥ }
{
    for l in k + 1..row.len() {
        if has_lead(vector, l) && row[l] != 0 {
            return false;
        }
    }
    true
}

/// Whether a row has 0 at each lead of a vector of the space that is after place k.
fn is_clear(space: &[Vec<u8>], row: &[u8], k: usize) -> bool
    requires place { k < length row.now }
    requires same_length { All (λ v. length v ≡ length row.now) (rows_of space.now) }
    ensures yes { result ≡ true → IsClearOfAll k row.now (rows_of space.now) }
    ensures no { result ≡ false → IsClearOfAll k row.now (rows_of space.now) → ⊥ }
{
    for vector in space {
        if !is_clear_of(row, k, vector) {
            return false;
        }
    }
    true
}

/// The place of a vector of a listed space that has its lead at place k, and 0 at each later lead of a vector of the space.
fn reduced_place(space: &[Vec<u8>], t: usize, k: usize) -> Option<usize>
    requires place { k < t }
    requires same_length { All (λ v. length v ≡ t) (rows_of space.now) }
    ensures some { IfSome result (λ i. (i < length space.now) × IsReducedAt k (rows_of space.now) i) }
    ensures none { IfNone result ((i : ℕ) → i < length space.now → IsReducedAt k (rows_of space.now) i → ⊥) }
{
    for (i, row) in space.iter().enumerate() {
        if has_lead(row, k) && is_clear(space, row, k) {
            return Some(i);
        }
    }
    None
}

/// Puts the vectors, with one more digit before each, after what is there.
fn push_after_digit(
    alloc: Global,
    first: u8,
    vectors: &[Vec<u8>],
    out: &mut Vec<Vec<u8>>,
) -> Result<(), AllocError>
    ensures { IfOk result (λ _. rows_of out.new.items ≡ rows_of out.old.items ++ map (λ v. first ∷ v) (rows_of vectors.now)) }
{
    for vector in vectors {
        let mut longer = Vec::new(alloc);
        longer.push(first)?;
        longer.extend_from_slice(vector)?;
        out.push(longer)?;
    }
    Ok(())
}

/// The vectors with each digit of the field before them.
fn after_each_digit(
    alloc: Global,
    f: Field,
    vectors: &[Vec<u8>],
) -> Result<Vec<Vec<u8>>, AllocError>
    ensures { IfOk result (λ v. rows_of v.items ≡ flat_map (λ d. map (λ u. d ∷ u) (rows_of vectors.now)) (range_with_len 0 (order f))) }
{
    let mut all = Vec::new(alloc);
    for digit in 0..f.q() {
        push_after_digit(alloc, digit, vectors, &mut all)?;
    }
    Ok(all)
}

/// All vectors of n digits.
fn all_vectors(alloc: Global, f: Field, n: usize) -> Result<Vec<Vec<u8>>, AllocError>
    ensures { IfOk result (λ v. rows_of v.items ≡ subspaces.all_vectors f n) }
{
    if n == 0 {
        let mut one = Vec::new(alloc);
        one.push(Vec::new(alloc))?;
        return Ok(one);
    }
    let shorter = all_vectors(alloc, f, n - 1)?;
    Ok(after_each_digit(alloc, f, &shorter)?)
}

/// Whether a vector of the boundary, with a zero for each of m internal rows after it, is a combination of the columns.
fn is_shown(
    alloc: Global,
    f: Field,
    m: usize,
    columns: &[Vec<u8>],
    vector: &[u8],
) -> Result<bool, AllocError>
    requires digits { AreDigits f vector.now }
    requires columns { AreVectors f (length vector.now + m) (rows_of columns.now) }
    ensures { IfOk result (λ b. b ≡ is_in_span f (length vector.now + m) (rows_of columns.now) (vector.now ++ zeros m)) }
{
    let mut column = vector.to_vec(alloc)?;
    push_zeros(&mut column, m)?;
    Ok(in_span(alloc, f, columns, &column)?)
}

/// All vectors of the boundary space of columns with t boundary digits and m internal ones.
fn boundary_vectors(
    alloc: Global,
    f: Field,
    t: usize,
    m: usize,
    columns: &[Vec<u8>],
) -> Result<Vec<Vec<u8>>, AllocError>
    requires { AreVectors f (t + m) (rows_of columns.now) }
    ensures { IfOk result (λ v. rows_of v.items ≡ spaces.boundary_vectors f t m (rows_of columns.now)) }
{
    let all = all_vectors(alloc, f, t)?;
    let mut kept = Vec::new(alloc);
    for vector in &all {
        if is_shown(alloc, f, m, columns, vector)? {
            kept.push(vector.to_vec(alloc)?)?;
        }
    }
    Ok(kept)
}

/// The boundary space of columns with t boundary digits and m internal ones, by its reduced echelon basis.
pub fn boundary_space(
    alloc: Global,
    f: Field,
    t: usize,
    m: usize,
    columns: &[Vec<u8>],
) -> Result<Vec<Vec<u8>>, AllocError>
    requires { AreVectors f (t + m) (rows_of columns.now) }
    ensures { IfOk result (λ v. rows_of v.items ≡ boundary_spaces.boundary_space f t m (rows_of columns.now)) }
{
    let space = boundary_vectors(alloc, f, t, m, columns)?;
    let mut rows = Vec::new(alloc);
    for k in 0..t {
        if let Some(i) = reduced_place(&space, t, k) {
            rows.push(space[i].to_vec(alloc)?)?;
        }
    }
    Ok(rows)
}
