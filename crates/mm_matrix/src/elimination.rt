//! Steps of elimination on rows in reduced echelon form. Each row has its first digit other than 0, a 1, at a place of its
//! own, its lead; the leads increase, and each row has 0 at the leads of the others.

ghost use Rattle.std.specs.Prelude.{◌≡◌, ◌≢◌, ◌<◌, ◌≤◌, ◌++◌, ◌∷◌, ℕ, List, length, map, take, drop, slice_index, OnOk, IfOk, MatchOption, All};
ghost use Rattle.mm_field.specs.Digits.{inverse};
ghost use Rattle.mm_field.specs.Vectors.{IsVector, AreVectors, InSpan, SameRowSpace, multiple, zeros};
ghost use Rattle.mm_linear.specs.Eliminate.{cleared};
ghost use Rattle.mm_linear.specs.ReducedEchelon.{Leads};
ghost use Rattle.mm_matrix.specs.KeptRows.{digits};
ghost use Rattle.mm_matrix.specs.Residues.{AreReduced, IsResidue, IsNew, AddsAs, IsPlaceOf};

use mm_base::NoMemory;
use mm_field::{Field, lanes};
use std::alloc::Global;

/// Takes from `v` its part along the rows.
fn reduce(f: Field, rows: &Vec<Vec<u8>>, leads: &Vec<usize>, v: &mut [u8])
    requires vector { IsVector f (length v.old) v.old }
    requires each { AreVectors f (length v.old) (digits rows.now.items) }
    requires leads { Leads (length v.old) 0 (digits rows.now.items) leads.now.items }
    ensures { IsResidue f (length v.old) (digits rows.now.items) leads.now.items v.old v.new }
{
    for i in 0..rows.len() {
        clear_row(f, leads[i], &rows[i], v);
    }
}

/// What is left of `row` without its part along the rows.
pub fn residue(
    alloc: Global,
    f: Field,
    rows: &Vec<Vec<u8>>,
    leads: &Vec<usize>,
    row: &[u8],
) -> Result<Vec<u8>, NoMemory>
    requires vector { IsVector f (length row.now) row.now }
    requires each { AreVectors f (length row.now) (digits rows.now.items) }
    requires leads { Leads (length row.now) 0 (digits rows.now.items) leads.now.items }
    ensures { IfOk result (λ rest. IsResidue f (length row.now) (digits rows.now.items) leads.now.items row.now rest.items) }
{
    let mut rest = row.to_vec(alloc)?;
    reduce(f, rows, leads, &mut rest);
    Ok(rest)
}

/// Divides `rest` by its digit at `lead`, which is not 0.
fn with_leading_one(f: Field, lead: usize, rest: &mut [u8])
    requires place { lead < length rest.old }
    requires vector { IsVector f (length rest.old) rest.old }
    requires nonzero { slice_index rest.old lead ≢ 0 }
    ensures { rest.new ≡ multiple f (inverse f (slice_index rest.old lead)) rest.old }
{
    let factor = f.inv(rest[lead]);
    lanes::scale(f, factor, rest);
}

/// A row that leads at a place of its own, with a 1 there, and has 0 at all leads of the rows that it is new to.
#[derive(Drop)]
pub struct NewRow {
    pub lead: usize,
    pub digits: Vec<u8>,
}

/// The row that adds to the span of the rows what `row` adds; None where `row` is in their span.
pub fn new_row(
    alloc: Global,
    f: Field,
    rows: &Vec<Vec<u8>>,
    leads: &Vec<usize>,
    row: &[u8],
) -> Result<Option<NewRow>, NoMemory>
    requires vector { IsVector f (length row.now) row.now }
    requires reduced { AreReduced f (length row.now) (digits rows.now.items) leads.now.items }
    ensures { IfOk result (λ new. MatchOption new
        (InSpan f (length row.now) (digits rows.now.items) row.now)
        (λ w. AddsAs f (length row.now) w.lead w.digits.items (digits rows.now.items) leads.now.items row.now)) }
{
    let mut rest = residue(alloc, f, rows, leads, row)?;
    let Some(lead) = lanes::first_nonzero(&rest) else {
        return Ok(None);
    };
    with_leading_one(f, lead, &mut rest);
    Ok(Some(NewRow { lead, digits: rest }))
}

/// Takes from `row` its part along `w`, which leads at `lead`: nothing changes before there.
fn clear_row(f: Field, lead: usize, w: &[u8], row: &mut [u8])
    requires place { lead < length w.now }
    requires vector { IsVector f (length w.now) w.now }
    requires row { IsVector f (length w.now) row.old }
    requires start { take lead w.now ≡ zeros lead }
    ensures { row.new ≡ cleared f lead w.now row.old }
{
    let digit = row[lead];
    if digit == 0 {
        return;
    }
    let factor = f.neg(digit);
    lanes::axpy(f, factor, &w[lead..], &mut row[lead..]);
}

/// Takes from each of the first `count` rows its part along `w`, which leads at `lead`.
fn clear_first(f: Field, lead: usize, w: &[u8], rows: &mut Vec<Vec<u8>>, count: usize)
    requires place { lead < length w.now }
    requires vector { IsVector f (length w.now) w.now }
    requires start { take lead w.now ≡ zeros lead }
    requires each { AreVectors f (length w.now) (digits rows.old.items) }
    requires count { count ≤ length rows.old.items }
    ensures { digits rows.new.items ≡ map (cleared f lead w.now) (take count (digits rows.old.items))
        ++ drop count (digits rows.old.items) }
{
    for i in 0..count {
        clear_row(f, lead, w, &mut rows[i]);
    }
}

/// How many leads come before `lead`, which is none of them.
fn place_of(lead: usize, leads: &[usize]) -> usize
    requires { All (λ k. k ≢ lead) leads.now }
    ensures { IsPlaceOf lead leads.now result }
{
    for (i, other) in leads.iter().enumerate() {
        if lead < *other {
            return i;
        }
    }
    leads.len()
}

/// Puts a new row in at the place of its lead, and takes from the other rows their part along it.
pub fn insert(
    f: Field,
    rows: &mut Vec<Vec<u8>>,
    leads: &mut Vec<usize>,
    new: NewRow,
) -> Result<(), NoMemory>
    requires reduced { AreReduced f (length new.digits.items) (digits rows.old.items) leads.old.items }
    requires new { IsNew f (length new.digits.items) new.lead new.digits.items leads.old.items }
    ensures reduced { OnOk result (AreReduced f (length new.digits.items) (digits rows.new.items) leads.new.items) }
    ensures span { OnOk result (SameRowSpace f (length new.digits.items)
        (new.digits.items ∷ digits rows.old.items) (digits rows.new.items)) }
{
    let place = place_of(new.lead, leads);
    clear_first(f, new.lead, &new.digits, rows, place);
    rows.insert(place, new.digits)?;
    leads.insert(place, new.lead)?;
    Ok(())
}
