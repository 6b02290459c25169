//! One type at a node, with the least set of that type.

ghost use Rattle.std.specs.Prelude.{◌≡◌, ◌<◌, ◌+◌, ℕ, length, None, Some, true};
ghost use Rattle.mm_least.specs.Rows.{IsPlaceIn, Appends, Puts, AddsRow, shown};

use crate::LeastFault;
use mm_states::TypeId;

/// Where the set of a row comes from.
#[derive(Clone, Copy, Debug, PartialEq, Eq)]
pub enum Origin {
    /// The element of a leaf is left out, or the leaf has none.
    Out,
    /// The element of a leaf is taken.
    Taken,
    /// A row of the left child and one of the right child, by their places.
    Pair(u32, u32),
}

/// One type at a node, with the least set of that type. Rows stand in the order of the leaf words of their sets: the place of a row is its
/// rank.
#[derive(Clone, Copy, Debug, PartialEq, Eq)]
pub struct Row {
    /// The number of the type.
    pub id: TypeId,
    /// The weight of the set.
    pub weight: i64,
    /// Where the set comes from.
    pub origin: Origin,
}

/// The place of the row of a type.
fn place_of(rows: &[Row], id: TypeId) -> Option<usize>
    ensures { IsPlaceIn rows.now id result }
{
    for k in 0..rows.len() {
        if rows[k].id == id {
            return Some(k);
        }
    }
    None
}

/// Puts a row last.
fn push_row(row: Row, rows: &mut Vec<Row>) -> Result<(), LeastFault>
    ensures { Appends row rows.old.items rows.new.items result }
{
    match rows.push(row) {
        Ok(()) => Ok(()),
        Err(_) => Err(LeastFault::NoMemory),
    }
}

/// Puts a row last, in place of the one of its type where it weighs less.
fn replace_row(row: Row, place: usize, rows: &mut Vec<Row>) -> Result<(), LeastFault>
    requires { IsPlaceIn rows.old.items row.id (Some place) }
    ensures { Puts row rows.old.items rows.new.items result }
{
    if row.weight < rows[place].weight {
        let _ = rows.remove(place);
        push_row(row, rows)
    } else {
        Ok(())
    }
}

/// Puts a row last, in place of the one of its type where it weighs less, or where there is none of its type; each row takes one of the
/// room.
pub(crate) fn add_row(row: Row, rows: &mut Vec<Row>, room: &mut u64) -> Result<(), LeastFault>
    ensures { AddsRow row rows.old.items rows.new.items room.old room.new result }
{
    match place_of(rows, row.id) {
        Some(place) => replace_row(row, place, rows),
        None => add_new_row(row, rows, room),
    }
}

/// Puts the row of another type last; it takes one of the room.
fn add_new_row(row: Row, rows: &mut Vec<Row>, room: &mut u64) -> Result<(), LeastFault>
    requires { IsPlaceIn rows.old.items row.id None }
    ensures { AddsRow row rows.old.items rows.new.items room.old room.new result }
{
    if *room == 0 {
        return Err(LeastFault::Full);
    }
    *room -= 1;
    push_row(row, rows)
}

/// Whether rows show the same types and weights, place by place.
pub(crate) fn show_same(rows: &[Row], others: &[Row]) -> bool
    ensures { result ≡ true → shown rows.now ≡ shown others.now }
{
    if rows.len() != others.len() {
        return false;
    }
    for k in 0..rows.len() {
        if rows[k].id != others[k].id || rows[k].weight != others[k].weight {
            return false;
        }
    }
    true
}
