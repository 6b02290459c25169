//! What a walk over the pairs of a join has found.

ghost use Rattle.std.specs.Prelude.{◌≡◌, ◌<◌, length, slice_index_or, false};
ghost use Rattle.mm_least.specs.Logs.{AreApart, IsLog};
ghost use Rattle.mm_least.specs.FoundTypes.{IsFound, IsPlaceAmong, IsNothingFound, AddsType, Enters, PutsFound, PutsNew};
ghost use Rattle.mm_least.specs.FoundTypes.{Reaches, SetsPlace, is_in, rows_of};

use crate::log::{Entry, offer};
use crate::{LeastFault, Row};
use mm_states::TypeId;
use std::alloc::Global;

/// The types that a walk over pairs of types has found, and the rows found for them.
#[derive(Drop)]
pub(crate) struct Found {
    /// The numbers of the types, each of them once, in the order in which they were found.
    pub(crate) ids: Vec<TypeId>,
    /// The place among these of each number that has one.
    pub(crate) places: Vec<Option<u32>>,
    /// For each place the last of its rows in the log.
    pub(crate) lasts: Vec<Option<usize>>,
    /// The rows in the order in which they were found.
    pub(crate) log: Vec<Entry>,
    /// For each pair the place of its type.
    pub(crate) table: Vec<u32>,
}

impl Found {
    /// Nothing. No memory.
    pub(crate) fn new(alloc: Global) -> Found
        ensures { IsNothingFound result }
    {
        Found {
            ids: Vec::new(alloc),
            places: Vec::new(alloc),
            lasts: Vec::new(alloc),
            log: Vec::new(alloc),
            table: Vec::new(alloc),
        }
    }

    /// The place of the type of a number, if it was found.
    pub(crate) fn place_of(&self, id: TypeId) -> Option<u32>
        requires { IsFound self.now }
        ensures { IsPlaceAmong self.now.ids.items id result }
    {
        let at = id as usize;
        if at < self.places.len() {
            self.places[at]
        } else {
            None
        }
    }

    /// How many rows there are, one for each type.
    pub(crate) fn count(&self) -> usize
        requires { IsFound self.now }
        ensures { result ≡ length (rows_of self.now) }
    {
        self.ids.len()
    }

    /// Puts the row of a pair whose type was found before.
    pub(crate) fn put(&mut self, place: u32, row: Row) -> Result<(), LeastFault>
        requires found { IsFound self.old }
        requires there { place < length self.old.ids.items }
        requires named { slice_index_or self.old.ids.items place 0 ≡ row.id }
        ensures { PutsFound row self.old self.new result }
    {
        self.enter(place, row)
    }

    /// Puts the row of a pair whose type was not found before.
    pub(crate) fn put_new(&mut self, row: Row) -> Result<(), LeastFault>
        requires found { IsFound self.old }
        requires new { is_in row.id self.old.ids.items ≡ false }
        requires few { length self.old.ids.items < 4294967296 }
        ensures { PutsNew row self.old self.new result }
    {
        match self.add_type(row.id) {
            Ok(place) => self.enter(place, row),
            Err(fault) => Err(fault),
        }
    }

    /// A place for a type that has none.
    fn add_type(&mut self, id: TypeId) -> Result<u32, LeastFault>
        requires { length self.old.ids.items < 4294967296 }
        ensures { AddsType id self.old self.new result }
    {
        let place = self.ids.len() as u32;
        if self.ids.push(id).is_err() {
            return Err(LeastFault::NoMemory);
        }
        if self.lasts.push(None).is_err() {
            return Err(LeastFault::NoMemory);
        }
        match set_place(id, place, &mut self.places) {
            Ok(()) => Ok(place),
            Err(fault) => Err(fault),
        }
    }

    /// Puts the row of a pair whose type has a place.
    fn enter(&mut self, place: u32, row: Row) -> Result<(), LeastFault>
        requires there { place < length self.old.ids.items }
        requires apart { AreApart self.old.ids.items }
        requires named { row.id ≡ slice_index_or self.old.ids.items place 0 }
        requires log { IsLog self.old.ids.items self.old.lasts.items self.old.log.items }
        ensures { Enters place row self.old self.new result }
    {
        if self.table.push(place).is_err() {
            return Err(LeastFault::NoMemory);
        }
        offer(&self.ids, place, row, &mut self.lasts, &mut self.log)
    }
}

/// Makes a list of places reach a number.
fn reach(id: TypeId, places: &mut Vec<Option<u32>>) -> Result<(), LeastFault>
    ensures { Reaches id places.old.items places.new.items result }
{
    let at = id as usize;
    if at < places.len() {
        return Ok(());
    }
    match places.resize(at + 1, None) {
        Ok(()) => Ok(()),
        Err(_) => Err(LeastFault::NoMemory),
    }
}

/// Sets the place of a number.
fn set_place(id: TypeId, place: u32, places: &mut Vec<Option<u32>>) -> Result<(), LeastFault>
    ensures { SetsPlace id place places.old.items places.new.items result }
{
    match reach(id, places) {
        Ok(()) => {
            places[id as usize] = Some(place);
            Ok(())
        }
        Err(fault) => Err(fault),
    }
}
