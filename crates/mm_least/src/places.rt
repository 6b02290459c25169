//! Where the types of rows are among the types of a table.

ghost use Rattle.std.specs.Prelude.{◌≡◌, ◌<◌, None, slice_index_or};
ghost use Rattle.mm_states.specs.Lists.{AllFit};
ghost use Rattle.mm_least.specs.KnownRows.{FindsPlaces, MakesIndex};

use crate::transition::place_near;
use crate::{LeastFault, Row};
use mm_states::TypeId;
use std::alloc::Global;

/// So many rows are sought one by one.
const FEW: usize = 16;

/// A number above all of these.
fn bound_of(ids: &[TypeId]) -> usize
    ensures { AllFit (λ id. id < result) ids.now }
{
    let mut bound = 0;
    for k in 0..ids.len() {
        let id = ids[k] as usize;
        if bound <= id {
            bound = id + 1;
        }
    }
    bound
}

/// For each number below the bound a place among these, if it has one.
fn index_of(alloc: Global, ids: &[TypeId], bound: usize) -> Result<Vec<Option<usize>>, LeastFault>
    requires { AllFit (λ id. id < bound) ids.now }
    ensures { MakesIndex ids.now result }
{
    let Ok(mut index) = Vec::from_elem(alloc, None, bound) else {
        return Err(LeastFault::NoMemory);
    };
    for k in 0..ids.len() {
        index[ids[k] as usize] = Some(k);
    }
    Ok(index)
}

/// The place of a number by an index, if it has one.
fn place_by(index: &[Option<usize>], id: TypeId) -> Option<usize>
    ensures { result ≡ slice_index_or index.now id None }
{
    let at = id as usize;
    if at < index.len() { index[at] } else { None }
}

/// A place for the type of each row, by an index of the numbers below the bound.
fn places_by_index(
    alloc: Global,
    ids: &[TypeId],
    bound: usize,
    rows: &[Row],
) -> Result<Option<Vec<usize>>, LeastFault>
    requires { AllFit (λ id. id < bound) ids.now }
    ensures { FindsPlaces ids.now rows.now result }
{
    let index = match index_of(alloc, ids, bound) {
        Ok(index) => index,
        Err(fault) => return Err(fault),
    };
    let mut places = Vec::new(alloc);
    for k in 0..rows.len() {
        let Some(place) = place_by(&index, rows[k].id) else {
            return Ok(None);
        };
        match places.push(place) {
            Ok(()) => {}
            Err(_) => return Err(LeastFault::NoMemory),
        }
    }
    Ok(Some(places))
}

/// A place for the type of each row, each sought after the one before.
fn places_by_search(
    alloc: Global,
    ids: &[TypeId],
    rows: &[Row],
) -> Result<Option<Vec<usize>>, LeastFault>
    ensures { FindsPlaces ids.now rows.now result }
{
    let mut places = Vec::new(alloc);
    let mut guess = 0;
    for k in 0..rows.len() {
        let Some(place) = place_near(ids, rows[k].id, guess) else {
            return Ok(None);
        };
        guess = place + 1;
        match places.push(place) {
            Ok(()) => {}
            Err(_) => return Err(LeastFault::NoMemory),
        }
    }
    Ok(Some(places))
}

/// A place among the types of a table for the type of each row; none where the table lacks one of these types.
///
/// Many rows are found by an index, unless it is longer than all searches together.
pub(crate) fn places_of(
    alloc: Global,
    ids: &[TypeId],
    rows: &[Row],
) -> Result<Option<Vec<usize>>, LeastFault>
    ensures { FindsPlaces ids.now rows.now result }
{
    if rows.len() > FEW {
        let bound = bound_of(ids);
        if bound / rows.len() <= ids.len() {
            return places_by_index(alloc, ids, bound, rows);
        }
    }
    places_by_search(alloc, ids, rows)
}
