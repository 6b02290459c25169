//! Sets of numbers with a number beside each: the types of an element quantifier.

ghost use Rattle.std.specs.Prelude.{◌≡◌, ◌+◌, ◌^◌, ◌<◌, suc, [], length, take, Some, slice_get, slice_index_or};
ghost use Rattle.std.specs.Ordering.{nat_cmp};
ghost use Rattle.mm_logic.specs.Order as order;
ghost use Rattle.mm_combine.specs.SetWords.{has_one, one_cells, one_of};
ghost use Rattle.mm_combine.specs.Puts.{Puts};

use crate::marked::{MarkedTable, TableKey};
use crate::members::Members;
use mm_base::NoMemory;
use mm_states::{AutoFault, TypeId};
use std::alloc::Global;
use std::marker::Model;

/// The numbers in a value of an element quantifier.
#[derive(PartialEq, Eq, Hash, Drop)]
pub struct OneIds {
    /// The number of the type with the variable unassigned.
    pub unassigned: TypeId,
    /// The numbers of the types with the variable at one element.
    pub members: Members,
}

impl TableKey for OneIds {
    ghost use Rattle.std.specs.Prelude.{suc, length};
    ghost use Rattle.mm_combine.specs.Sizes.{one_at_least};

    ghost size = { λ ids. suc (length ids.members) };

    ghost some = { λ ids. one_at_least (length ids.members) };

    fn cells(&self) -> u64 {
        1 + self.members.ids().len() as u64
    }

    fn copy(&self, alloc: Global) -> Result<Self, NoMemory> {
        Ok(OneIds {
            unassigned: self.unassigned,
            members: self.members.copy(alloc)?,
        })
    }
}

/// Values of an element quantifier, numbered in order of first sight.
#[derive(Drop)]
pub struct OneTable {
    table: MarkedTable<OneIds>,
}

impl Model for OneTable {
    ghost use Rattle.mm_combine.specs.Marked.{Ones, ones_code};
    ghost use Rattle.mm_combine.specs.SetWords.{ones_of};

    ghost Value = { Ones };

    ghost coded = { ones_code };

    ghost view = { λ t. record { values = ones_of t.table.table; mark = t.table.mark } };
}

impl OneTable {
    /// No values, and a mark there.
    pub fn new(alloc: Global) -> Self
        ensures { result ≡ record { values = []; mark = 0 } }
    {
        OneTable {
            table: MarkedTable::new(alloc),
        }
    }

    /// How many values there are.
    pub fn len(&self) -> u32
        ensures { result ≡ length self.now.values }
    {
        self.table.len()
    }

    /// The cells of the values: one, and one for each member.
    pub fn cells(&self) -> u64
        ensures { result ≡ one_cells self.now.values }
    {
        self.table.cells()
    }

    /// Marks the present values.
    pub fn mark(&mut self)
        ensures { self.new ≡ record { values = self.old.values; mark = length self.old.values } }
    {
        self.table.mark();
    }

    /// Goes back to the values at the last mark.
    pub fn roll_back(&mut self)
        ensures { self.new ≡ record { values = take self.old.mark self.old.values; mark = self.old.mark } }
    {
        self.table.roll_back();
    }

    /// The number of the unassigned part of a value.
    pub fn unassigned(&self, id: TypeId) -> TypeId
        requires { id < length self.now.values }
        ensures { result ≡ (slice_index_or self.now.values id (0, [])).0 }
    {
        self.table.get(id).unassigned
    }

    /// The members of a value, rising.
    pub fn members(&self, id: TypeId) -> &[TypeId]
        requires { id < length self.now.values }
        ensures members { result.now ≡ (slice_index_or self.now.values id (0, [])).1 }
        ensures rising { order.Rising nat_cmp result.now }
    {
        self.table.get(id).members.ids()
    }

    /// The number of a value, which is copied where it is new: it takes one cell, and one for each member. `Full` exactly where it is
    /// not there and these exceed the room. After a refusal the table is as before.
    pub fn put(&mut self, alloc: Global, key: &OneIds, room: u64) -> Result<TypeId, AutoFault>
        requires { one_cells self.old.values + room < 2 ^ 32 }
        ensures mark { self.new.mark ≡ self.old.mark }
        ensures kept { take self.old.mark self.new.values ≡ take self.old.mark self.old.values }
        ensures answer { Puts (one_of key.now) (has_one self.old.values (one_of key.now)) (suc (length key.now.members))
            self.old.values self.new.values room result }
    {
        self.table.put(alloc, key, room)
    }
}
