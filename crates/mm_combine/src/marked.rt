//! A table that counts the cells of its values, and goes back to a mark.

ghost use Rattle.std.specs.Prelude.{◌≡◌, ◌<◌, ◌≤◌, ◌+◌, ◌^◌, ℕ, [], length, take, sum_by, IfOk, slice_get, Some};
ghost use Rattle.mm_combine.specs.Puts.{PutsKey};

use mm_base::NoMemory;
use mm_states::{AutoFault, Table, TypeId};
use std::alloc::Global;
use std::hash::Hash;

/// What a table numbers: it takes cells, and is copied only where it is new.
pub trait TableKey: Eq + Hash + Drop {
    ghost size: { Self → ℕ };

    ghost some: { (k : Self) → 1 ≤ size k };

    /// The cells that it takes.
    fn cells(&self) -> u64
        ensures { result ≡ size self.now };

    /// A copy.
    fn copy(&self, alloc: Global) -> Result<Self, NoMemory>
    where
        Self: Sized,
        ensures { IfOk result (λ k. k ≡ self.now) };
}

/// Values numbered in order of first sight, with their cells, and how many there were at the last mark.
#[derive(Drop)]
pub struct MarkedTable<K: TableKey> {
    table: Table<K>,
    mark: u32,
    cells: u64,
    marked_cells: u64,
    ghost within: { mark ≤ length table },
    ghost few: { cells < 2 ^ 32 },
    ghost counted: { cells ≡ sum_by K.size table },
    ghost marked_counted: { marked_cells ≡ sum_by K.size (take mark table) },
}

impl<K: TableKey> MarkedTable<K> {
    /// No values, and a mark there.
    pub fn new(alloc: Global) -> Self
        ensures values { result.table ≡ [] }
        ensures mark { result.mark ≡ 0 }
    {
        MarkedTable {
            table: Table::new(alloc),
            mark: 0,
            cells: 0,
            marked_cells: 0,
        }
    }

    /// How many values there are.
    pub fn len(&self) -> u32
        ensures { result ≡ length self.now.table }
    {
        self.table.len()
    }

    /// The cells of the values.
    pub fn cells(&self) -> u64
        ensures { result ≡ sum_by K.size self.now.table }
    {
        self.cells
    }

    /// The value of a number.
    pub fn get(&self, id: TypeId) -> &K
        requires { id < length self.now.table }
        ensures { slice_get self.now.table id ≡ Some result.now }
    {
        self.table.get(id)
    }

    /// Marks the present values.
    pub fn mark(&mut self)
        ensures values { self.new.table ≡ self.old.table }
        ensures mark { self.new.mark ≡ length self.old.table }
    {
        self.mark = self.table.len();
        self.marked_cells = self.cells;
    }

    /// Goes back to the values at the last mark.
    pub fn roll_back(&mut self)
        ensures values { self.new.table ≡ take self.old.mark self.old.table }
        ensures mark { self.new.mark ≡ self.old.mark }
    {
        self.table.cut(self.mark);
        self.cells = self.marked_cells;
    }

    /// The number of a value, which goes last where it is not there. `Full` exactly where it is not there and its cells exceed the
    /// room. After a refusal the table is as before.
    pub fn put(&mut self, alloc: Global, key: &K, room: u64) -> Result<TypeId, AutoFault>
        requires { sum_by K.size self.old.table + room < 2 ^ 32 }
        ensures mark { self.new.mark ≡ self.old.mark }
        ensures kept { take self.old.mark self.new.table ≡ take self.old.mark self.old.table }
        ensures answer { PutsKey K.PartialEq.eq K.size key.now self.old.table self.new.table room result }
    {
        match self.table.find(key) {
            Some(id) => Ok(id),
            None => {
                let cells = key.cells();
                if room < cells {
                    return Err(AutoFault::Full);
                }
                let id = self.table.put(alloc, key.copy(alloc)?)?;
                self.cells += cells;
                Ok(id)
            }
        }
    }
}
