//! Joins that are remembered.

ghost use Rattle.std.specs.Prelude.{◌≡◌, ◌<◌, ◌≤◌, true, None, Some, IfSome, IfOk, OnOk, []};
ghost use Rattle.mm_states.specs.Cells.{Forgets, Keeps};
ghost use Rattle.mm_states.specs.Memos.{covered, joins_answer, no_answers};

use crate::cache::Cache;
use crate::grid::{Grid, NOTHING, larger};
use crate::table::TypeId;
use mm_base::NoMemory;
use std::alloc::Global;

/// The most operators that have a grid of their own.
const MAX_GRIDS: usize = 4096;

/// The most ids on each side of a grid.
const MAX_WIDTH: usize = 1024;

/// The most cells of all grids.
const MAX_CELLS: usize = 1_048_576;

/// The ids on each side of the first grid of an operator.
const FIRST_WIDTH: usize = 8;

/// Of how many cells one must have been kept for a grid to grow.
const SPARSE: usize = 16;

/// Joins that are remembered, by the number of the operator and the numbers of the two types.
///
/// While an operator meets few types, a grid of its own has the answers: a look-up is one load. Joins of other types are kept in one
/// cache, at the one place that each may have: a look-up compares one entry. So it has a bounded number of entries, some two million
/// at most, and may forget others whenever it keeps one.
#[derive(Drop)]
pub struct JoinMemo {
    grids: Vec<Grid>,
    cells: usize,
    cache: Cache,
}

impl JoinMemo {
    /// Remembers nothing. It takes no memory.
    pub fn new(alloc: Global) -> JoinMemo
        ensures { joins_answer result ≡ no_answers }
    {
        JoinMemo {
            grids: Vec::new(alloc),
            cells: 0,
            cache: Cache::new(alloc),
        }
    }

    /// The number of a join, where it is remembered. No memory.
    #[inline]
    pub fn find(&self, op: u32, left: TypeId, right: TypeId) -> Option<TypeId>
        ensures answer { result ≡ joins_answer self.now op left right }
        ensures number { IfSome result (λ id. id < 4294967295) }
    {
        match self.grids.get(op as usize) {
            Some(grid) => {
                if grid.covers(left, right) {
                    return grid.find(left, right);
                }
                self.cache.find(op, left, right)
            }
            None => self.cache.find(op, left, right),
        }
    }

    /// Remembers a join, and may forget others. `NoMemory` also where its number is 2^32 - 1.
    pub fn keep(
        &mut self,
        alloc: Global,
        op: u32,
        left: TypeId,
        right: TypeId,
        id: TypeId,
    ) -> Result<(), NoMemory>
        ensures there { OnOk result (joins_answer self.new op left right ≡ Some id) }
        ensures others { Keeps (joins_answer self.old) (joins_answer self.new) op left right id }
    {
        if id == NOTHING {
            return Err(NoMemory);
        }
        self.make_grid(alloc, op, left, right);
        self.put(alloc, op, left, right, id)
    }

    // Puts a join into its cell, or into the cache.
    fn put(
        &mut self,
        alloc: Global,
        op: u32,
        left: TypeId,
        right: TypeId,
        id: TypeId,
    ) -> Result<(), NoMemory>
        requires { id < 4294967295 }
        ensures there { OnOk result (joins_answer self.new op left right ≡ Some id) }
        ensures others { Keeps (joins_answer self.old) (joins_answer self.new) op left right id }
    {
        if !self.is_covered(op, left, right) {
            return self.cache.keep(alloc, op, left, right, id);
        }
        self.grids[op as usize].put(left, right, id);
        Ok(())
    }

    /// Forgets all. No memory.
    pub fn clear(&mut self)
        ensures { joins_answer self.new ≡ no_answers }
    {
        self.grids.clear();
        self.cells = 0;
        self.cache.clear();
    }

    // Whether a join has a cell in a grid.
    fn is_covered(&self, op: u32, left: TypeId, right: TypeId) -> bool
        ensures { result ≡ covered self.now.grids.items op left right }
    {
        match self.grids.get(op as usize) {
            Some(grid) => grid.covers(left, right),
            None => false,
        }
    }

    // Makes a grid with a cell for a join, where that is worth its memory and there is memory.
    fn make_grid(&mut self, alloc: Global, op: u32, left: TypeId, right: TypeId)
        ensures { Forgets (joins_answer self.old) (joins_answer self.new) }
    {
        if self.is_covered(op, left, right) || op as usize >= MAX_GRIDS {
            return;
        }
        self.make_empty_grids(alloc, op as usize);
        if let Some(width) = self.wanted_width(op, left, right) {
            self.widen(alloc, op as usize, width);
        }
    }

    // The width that a grid with a cell for a join has, where that is worth its memory.
    fn wanted_width(&self, op: u32, left: TypeId, right: TypeId) -> Option<usize>
        ensures { IfSome result (λ width. width ≤ 1024) }
    {
        let widest = left.max(right) as usize;
        if widest >= MAX_WIDTH {
            return None;
        }
        let width = (widest + 1).next_power_of_two().max(FIRST_WIDTH);
        let grid = self.grids.get(op as usize)?;
        if width > MAX_WIDTH || !grid.is_worth(width, SPARSE) {
            return None;
        }
        if self.cells.saturating_add(width * width) > MAX_CELLS {
            return None;
        }
        Some(width)
    }

    // Exchanges a grid for a wider one with the same answers, where there is memory.
    fn widen(&mut self, alloc: Global, op: usize, width: usize)
        requires { width ≤ 1024 }
        ensures { Forgets (joins_answer self.old) (joins_answer self.new) }
    {
        if op >= self.grids.len() {
            return;
        }
        let old = &self.grids[op];
        if width < old.width() {
            return;
        }
        if let Ok(wider) = larger(alloc, width, old) {
            self.grids[op] = wider;
            self.cells = self.cells.saturating_add(width * width);
        }
    }

    // Makes grids without cells up to this operator, while there is memory.
    fn make_empty_grids(&mut self, alloc: Global, op: usize)
        ensures { Forgets (joins_answer self.old) (joins_answer self.new) }
    {
        for _ in self.grids.len()..op.saturating_add(1) {
            self.push_grid(alloc);
        }
    }

    // Makes one more grid without cells, where there is memory.
    fn push_grid(&mut self, alloc: Global)
        ensures { Forgets (joins_answer self.old) (joins_answer self.new) }
    {
        let _ = self.grids.push(Grid::new(alloc));
    }
}
