//! Rows whose set is empty.

ghost use Rattle.std.specs.Prelude.{◌≡◌, ◌<◌, length, true};
ghost use Rattle.mm_least.specs.EmptySets.{ComesAt, ComesFromBoth};

use crate::{Origin, Row};

/// The place of a row that comes from there, if there is one.
pub(crate) fn place_from(rows: &[Row], origin: Origin) -> Option<u32>
    requires { length rows.now < 4294967296 }
    ensures { ComesAt rows.now origin result }
{
    for k in 0..rows.len() {
        if rows[k].origin == origin {
            return Some(k as u32);
        }
    }
    None
}

/// The place of the row that comes from two rows of the children whose sets are empty, if there is one.
pub(crate) fn place_from_both(left: Option<u32>, right: Option<u32>, rows: &[Row]) -> Option<u32>
    requires { length rows.now < 4294967296 }
    ensures { ComesFromBoth left right rows.now result }
{
    match (left, right) {
        (Some(i), Some(j)) => place_from(rows, Origin::Pair(i, j)),
        _ => None,
    }
}

/// Whether two places are the same, or there is neither.
pub(crate) fn same_place(place: Option<u32>, other: Option<u32>) -> bool
    ensures { result ≡ true → place ≡ other }
{
    match (place, other) {
        (Some(i), Some(j)) => i == j,
        (None, None) => true,
        _ => false,
    }
}
