//! Rows in the order in which they are found.

ghost use Rattle.std.specs.Prelude.{◌≡◌, ◌<◌, ℕ, true, false, Some, None, length, slice_index_or};
ghost use Rattle.mm_least.specs.Logs.{AreApart, IsLog, KnowsLast, Offers, StandsAs};

use crate::{LeastFault, Row};
use std::alloc::Global;

/// A row, with the place of its type among the types of its node.
#[derive(Clone, Copy)]
pub(crate) struct Entry {
    pub(crate) place: u32,
    pub(crate) row: Row,
}

/// Puts a row beside those that stand: it goes last, in place of the one of its type where it weighs less.
#[inline(always)]
pub(crate) fn offer(
    ids: &[u32],
    place: u32,
    row: Row,
    lasts: &mut Vec<Option<usize>>,
    log: &mut Vec<Entry>,
) -> Result<(), LeastFault>
    requires there { place < length ids.now }
    requires apart { AreApart ids.now }
    requires named { row.id ≡ slice_index_or ids.now place 0 }
    requires log { IsLog ids.now lasts.old.items log.old.items }
    ensures { Offers ids.now row log.old.items lasts.new.items log.new.items result }
{
    let _ = ids;
    match lasts[place as usize] {
        Some(last) => {
            if log[last].row.weight <= row.weight {
                return Ok(());
            }
        }
        None => {}
    }
    lasts[place as usize] = Some(log.len());
    match log.push(Entry { place, row }) {
        Ok(()) => Ok(()),
        Err(_) => Err(LeastFault::NoMemory),
    }
}

/// Whether entry k is the last one at a place.
fn is_last(lasts: &[Option<usize>], place: u32, k: usize) -> bool
    requires { place < length lasts.now }
    ensures same { result ≡ true → slice_index_or lasts.now place None ≡ Some k }
    ensures other { result ≡ false → slice_index_or lasts.now place None ≡ Some k → ⊥ }
{
    match lasts[place as usize] {
        Some(last) => last == k,
        None => false,
    }
}

/// The rows that stand.
pub(crate) fn standing(
    alloc: Global,
    lasts: &[Option<usize>],
    log: &[Entry],
) -> Result<Vec<Row>, LeastFault>
    requires { KnowsLast lasts.now log.now }
    ensures { StandsAs log.now result }
{
    let mut rows = Vec::new(alloc);
    for k in 0..log.len() {
        if is_last(lasts, log[k].place, k) {
            match rows.push(log[k].row) {
                Ok(()) => {}
                Err(_) => return Err(LeastFault::NoMemory),
            }
        }
    }
    Ok(rows)
}
