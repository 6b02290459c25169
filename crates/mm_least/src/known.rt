//! The walk over the candidates of a join whose types are known.

ghost use Rattle.std.specs.Prelude.{◌≡◌, ◌<◌, ◌≤◌, ◌*◌, ◌+ℤ◌, ℕ, length, nat_abs, slice_index_or};
ghost use Rattle.mm_least.specs.Rows.{shown};
ghost use Rattle.mm_least.specs.Candidates.{typed_by, pairs_with, pairs_of};
ghost use Rattle.mm_least.specs.Passes.{AreLight, most_sum};
ghost use Rattle.mm_least.specs.Transitions.{ArePlaces};
ghost use Rattle.mm_least.specs.Logs.{AreApart, IsLog, Offers};
ghost use Rattle.mm_least.specs.KnownRows.{AreRowPlaces, Logs, RowsKnown};

use crate::log::{Entry, offer, standing};
use crate::places::places_of;
use crate::transition::Transition;
use crate::{LeastFault, Origin, Row};
use mm_states::TypeId;
use std::alloc::Global;

/// The candidate of two rows, whose type has a place.
fn offer_pair(
    ids: &[TypeId],
    place: u32,
    left: &Row,
    right: &Row,
    origin: Origin,
    lasts: &mut Vec<Option<usize>>,
    log: &mut Vec<Entry>,
) -> Result<(), LeastFault>
    requires there { place < length ids.now }
    requires apart { AreApart ids.now }
    requires left { nat_abs left.now.weight ≤ most_sum }
    requires right { nat_abs right.now.weight ≤ most_sum }
    requires log { IsLog ids.now lasts.old.items log.old.items }
    ensures { Offers ids.now (record {
      id = slice_index_or ids.now place 0;
      weight = left.now.weight +ℤ right.now.weight;
      origin = origin;
    }) log.old.items lasts.new.items log.new.items result }
{
    let id = ids[place as usize];
    let weight = left.weight + right.weight;
    offer(ids, place, Row { id, weight, origin }, lasts, log)
}

/// The candidates of the left row of a place, which is at `at` in the table, with the right rows, which are at these columns.
fn offer_with(
    left: &Row,
    place: u32,
    at: usize,
    right: &[Row],
    columns: &[usize],
    transition: &Transition,
    lasts: &mut Vec<Option<usize>>,
    log: &mut Vec<Entry>,
) -> Result<(), LeastFault>
    requires sized { length transition.now.table ≡ length transition.now.left * length transition.now.right }
    requires placed { ArePlaces transition.now.ids transition.now.table }
    requires apart { AreApart transition.now.ids }
    requires there { at < length transition.now.left }
    requires here { slice_index_or transition.now.left at 0 ≡ left.now.id }
    requires columns { AreRowPlaces transition.now.right right.now columns.now }
    requires left_light { nat_abs left.now.weight ≤ most_sum }
    requires right_light { AreLight (shown right.now) }
    requires few { length right.now < 4294967296 }
    requires log { IsLog transition.now.ids lasts.old.items log.old.items }
    ensures { Logs transition.now (λ type join. pairs_with join (type left.now.id, left.now.weight) place
        (typed_by type (shown right.now)) 0) log.old.items lasts.new.items log.new.items result }
{
    let start = at * transition.right.len();
    for k in 0..right.len() {
        let column = columns[k];
        let made = transition.table[start + column];
        let origin = Origin::Pair(place, k as u32);
        match offer_pair(&transition.ids, made, left, &right[k], origin, lasts, log) {
            Ok(()) => {}
            Err(fault) => return Err(fault),
        }
    }
    Ok(())
}

/// The candidates of a join, whose left rows are at these places of the table and whose right rows are at these columns.
fn offer_all(
    left: &[Row],
    places: &[usize],
    right: &[Row],
    columns: &[usize],
    transition: &Transition,
    lasts: &mut Vec<Option<usize>>,
    log: &mut Vec<Entry>,
) -> Result<(), LeastFault>
    requires sized { length transition.now.table ≡ length transition.now.left * length transition.now.right }
    requires placed { ArePlaces transition.now.ids transition.now.table }
    requires apart { AreApart transition.now.ids }
    requires places { AreRowPlaces transition.now.left left.now places.now }
    requires columns { AreRowPlaces transition.now.right right.now columns.now }
    requires left_light { AreLight (shown left.now) }
    requires few_left { length left.now < 4294967296 }
    requires right_light { AreLight (shown right.now) }
    requires few { length right.now < 4294967296 }
    requires log { IsLog transition.now.ids lasts.old.items log.old.items }
    ensures { Logs transition.now (λ type join. pairs_of join (typed_by type (shown left.now)) 0 (typed_by type (shown right.now)))
        log.old.items lasts.new.items log.new.items result }
{
    for k in 0..left.len() {
        let at = places[k];
        match offer_with(
            &left[k], k as u32, at, right, columns, transition, lasts, log,
        ) {
            Ok(()) => {}
            Err(fault) => return Err(fault),
        }
    }
    Ok(())
}

/// The rows of a join, by the types that are known; none where the table lacks the type of a row.
pub(crate) fn known_rows(
    alloc: Global,
    left: &[Row],
    right: &[Row],
    transition: &Transition,
) -> Result<Option<Vec<Row>>, LeastFault>
    requires sized { length transition.now.table ≡ length transition.now.left * length transition.now.right }
    requires placed { ArePlaces transition.now.ids transition.now.table }
    requires apart { AreApart transition.now.ids }
    requires left_light { AreLight (shown left.now) }
    requires few_left { length left.now < 4294967296 }
    requires right_light { AreLight (shown right.now) }
    requires few { length right.now < 4294967296 }
    ensures { RowsKnown transition.now (λ type join. pairs_of join (typed_by type (shown left.now)) 0 (typed_by type (shown right.now)))
        result }
{
    let places = match places_of(alloc, &transition.left, left) {
        Ok(Some(places)) => places,
        Ok(None) => return Ok(None),
        Err(fault) => return Err(fault),
    };
    let columns = match places_of(alloc, &transition.right, right) {
        Ok(Some(columns)) => columns,
        Ok(None) => return Ok(None),
        Err(fault) => return Err(fault),
    };
    let Ok(mut lasts) = Vec::from_elem(alloc, None, transition.ids.len()) else {
        return Err(LeastFault::NoMemory);
    };
    let Ok(mut log) = Vec::with_capacity(alloc, transition.ids.len()) else {
        return Err(LeastFault::NoMemory);
    };
    match offer_all(
        left, &places, right, &columns, transition, &mut lasts, &mut log,
    ) {
        Ok(()) => match standing(alloc, &lasts, &log) {
            Ok(rows) => Ok(Some(rows)),
            Err(fault) => Err(fault),
        },
        Err(fault) => Err(fault),
    }
}
