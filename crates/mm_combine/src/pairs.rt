//! Pairs of numbers: the types of a connective.

ghost use Rattle.std.specs.Prelude.{◌≡◌, ◌+◌, ◌^◌, ◌<◌, [], ◌∷◌, length, take, Some, slice_get};
ghost use Rattle.mm_combine.specs.PairWords.{has_pair};
ghost use Rattle.mm_combine.specs.Puts.{Puts};

use crate::marked::{MarkedTable, TableKey};
use mm_base::NoMemory;
use mm_states::{AutoFault, TypeId};
use std::alloc::Global;
use std::marker::Model;

/// The numbers of the two parts of a connective's type.
#[derive(Clone, Copy, PartialEq, Eq, Hash)]
pub struct PartIds {
    /// The number of the first part.
    pub first: TypeId,
    /// The number of the second part.
    pub second: TypeId,
}

impl TableKey for PartIds {
    ghost use Rattle.mm_combine.specs.Sizes.{one_at_least};

    ghost size = { λ ids. 1 };

    ghost some = { λ ids. one_at_least 0 };

    fn cells(&self) -> u64 {
        1
    }

    fn copy(&self, _alloc: Global) -> Result<Self, NoMemory> {
        Ok(*self)
    }
}

/// Pairs of numbers, numbered in order of first sight.
#[derive(Drop)]
pub struct PairTable {
    table: MarkedTable<PartIds>,
}

impl Model for PairTable {
    ghost use Rattle.mm_combine.specs.Marked.{Pairs, pairs_code};
    ghost use Rattle.mm_combine.specs.PairWords.{pairs_of};

    ghost Value = { Pairs };

    ghost coded = { pairs_code };

    ghost view = { λ t. record { values = pairs_of t.table.table; mark = t.table.mark } };
}

impl PairTable {
    /// No pairs, and a mark there.
    pub fn new(alloc: Global) -> Self
        ensures { result ≡ record { values = []; mark = 0 } }
    {
        PairTable {
            table: MarkedTable::new(alloc),
        }
    }

    /// How many pairs there are.
    pub fn len(&self) -> u32
        ensures { result ≡ length self.now.values }
    {
        self.table.len()
    }

    /// The cells of the pairs, one each.
    pub fn cells(&self) -> u64
        ensures { result ≡ length self.now.values }
    {
        self.table.cells()
    }

    /// The pair of a number.
    pub fn pair(&self, id: TypeId) -> (TypeId, TypeId)
        requires { id < length self.now.values }
        ensures { slice_get self.now.values id ≡ Some result }
    {
        let ids = *self.table.get(id);
        (ids.first, ids.second)
    }

    /// Marks the present pairs.
    pub fn mark(&mut self)
        ensures { self.new ≡ record { values = self.old.values; mark = length self.old.values } }
    {
        self.table.mark();
    }

    /// Goes back to the pairs at the last mark.
    pub fn roll_back(&mut self)
        ensures { self.new ≡ record { values = take self.old.mark self.old.values; mark = self.old.mark } }
    {
        self.table.roll_back();
    }

    /// The number of a pair, which goes last where it is not there: it takes one cell. `Full` exactly where it is not there and the
    /// room is 0. After a refusal the table is as before.
    pub fn put(
        &mut self,
        alloc: Global,
        first: TypeId,
        second: TypeId,
        room: u64,
    ) -> Result<TypeId, AutoFault>
        requires { length self.old.values + room < 2 ^ 32 }
        ensures mark { self.new.mark ≡ self.old.mark }
        ensures kept { take self.old.mark self.new.values ≡ take self.old.mark self.old.values }
        ensures answer { Puts (first, second) (has_pair self.old.values (first, second)) 1 self.old.values self.new.values room result }
    {
        self.table.put(alloc, &PartIds { first, second }, room)
    }
}
