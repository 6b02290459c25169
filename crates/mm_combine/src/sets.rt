//! Sets of numbers: the types of a set quantifier.

ghost use Rattle.std.specs.Prelude.{◌≡◌, ◌+◌, ◌^◌, ◌<◌, suc, [], length, take, Some, slice_get};
ghost use Rattle.std.specs.Ordering.{nat_cmp};
ghost use Rattle.mm_logic.specs.Order as order;
ghost use Rattle.mm_combine.specs.SetWords.{has_set, set_cells};
ghost use Rattle.mm_combine.specs.Puts.{Puts};

use crate::marked::MarkedTable;
use crate::members::Members;
use mm_states::{AutoFault, TypeId};
use std::alloc::Global;
use std::marker::Model;

/// Sets of numbers, numbered in order of first sight.
#[derive(Drop)]
pub struct SetTable {
    table: MarkedTable<Members>,
}

impl Model for SetTable {
    ghost use Rattle.mm_combine.specs.Marked.{Sets, sets_code};

    ghost Value = { Sets };

    ghost coded = { sets_code };

    ghost view = { λ t. record { values = t.table.table; mark = t.table.mark } };
}

impl SetTable {
    /// No sets, and a mark there.
    pub fn new(alloc: Global) -> Self
        ensures { result ≡ record { values = []; mark = 0 } }
    {
        SetTable {
            table: MarkedTable::new(alloc),
        }
    }

    /// How many sets there are.
    pub fn len(&self) -> u32
        ensures { result ≡ length self.now.values }
    {
        self.table.len()
    }

    /// The cells of the sets: one, and one for each member.
    pub fn cells(&self) -> u64
        ensures { result ≡ set_cells self.now.values }
    {
        self.table.cells()
    }

    /// Marks the present sets.
    pub fn mark(&mut self)
        ensures { self.new ≡ record { values = self.old.values; mark = length self.old.values } }
    {
        self.table.mark();
    }

    /// Goes back to the sets at the last mark.
    pub fn roll_back(&mut self)
        ensures { self.new ≡ record { values = take self.old.mark self.old.values; mark = self.old.mark } }
    {
        self.table.roll_back();
    }

    /// The members of a set, rising.
    pub fn members(&self, id: TypeId) -> &[TypeId]
        requires { id < length self.now.values }
        ensures members { slice_get self.now.values id ≡ Some result.now }
        ensures rising { order.Rising nat_cmp result.now }
    {
        self.table.get(id).ids()
    }

    /// The number of a set, which is copied where it is new: it takes one cell, and one for each member. `Full` exactly where it is
    /// not there and these exceed the room. After a refusal the table is as before.
    pub fn put(&mut self, alloc: Global, members: &Members, room: u64) -> Result<TypeId, AutoFault>
        requires { set_cells self.old.values + room < 2 ^ 32 }
        ensures mark { self.new.mark ≡ self.old.mark }
        ensures kept { take self.old.mark self.new.values ≡ take self.old.mark self.old.values }
        ensures answer { Puts members.now (has_set self.old.values members.now) (suc (length members.now))
            self.old.values self.new.values room result }
    {
        self.table.put(alloc, members, room)
    }
}
