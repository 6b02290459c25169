//! The answers of one operator in a square: one load tells the number of a join.

ghost use Rattle.std.specs.Prelude.{◌≡◌, ◌<◌, ◌≤◌, ◌*◌, ◌+◌, ℕ, true, false, None, Some, List, [], length, IfOk, IfSome};
ghost use Rattle.mm_states.specs.Cells.{covers, grid_answer, ForgetsIn, KeepsIn};

use crate::table::TypeId;
use mm_base::NoMemory;
use std::alloc::Global;

/// What stands in a cell without a number.
pub(crate) const NOTHING: u32 = 4_294_967_295;

/// The most ids on each side.
const MAX_WIDTH: usize = 1024;

/// The numbers of the joins by one operator of types whose numbers are below the width: the join of two stands at the place of the
/// left one times the width plus the right one.
#[derive(Drop)]
pub(crate) struct Grid {
    width: usize,
    cells: Vec<u32>,
    /// How many joins were kept: a grid that is mostly empty does not grow.
    kept: usize,
    ghost narrow: { width ≤ 1024 },
    ghost square: { length cells.items ≡ width * width },
}

impl Grid {
    /// A grid that covers nothing. It takes no memory.
    pub(crate) fn new(alloc: Global) -> Grid
        ensures { result.width ≡ 0 }
    {
        Grid {
            width: 0,
            cells: Vec::new(alloc),
            kept: 0,
        }
    }

    /// Below which number types have cells.
    pub(crate) fn width(&self) -> usize
        ensures { result ≡ self.now.width }
    {
        self.width
    }

    /// Whether the join of these two has a cell.
    #[inline]
    pub(crate) fn covers(&self, left: TypeId, right: TypeId) -> bool
        ensures { result ≡ covers self.now.width left right }
    {
        (left as usize) < self.width && (right as usize) < self.width
    }

    /// Whether so many joins were kept that a grid of this width has one in at most `sparse` cells. The first grid is always worth it.
    pub(crate) fn is_worth(&self, width: usize, sparse: usize) -> bool {
        self.width == 0 || self.kept.saturating_mul(sparse) >= width.saturating_mul(width)
    }

    /// The number of a join, where it was kept.
    #[inline]
    pub(crate) fn find(&self, left: TypeId, right: TypeId) -> Option<TypeId>
        requires { covers self.now.width left right ≡ true }
        ensures answer { result ≡ grid_answer self.now.width self.now.cells.items left right }
        ensures number { IfSome result (λ id. id < 4294967295) }
    {
        let id = self.cells[left as usize * self.width + right as usize];
        if id == NOTHING { None } else { Some(id) }
    }

    /// Keeps the number of a join that has a cell.
    pub(crate) fn put(&mut self, left: TypeId, right: TypeId, id: TypeId)
        requires covered { covers self.old.width left right ≡ true }
        requires number { id < 4294967295 }
        ensures width { self.new.width ≡ self.old.width }
        ensures there { grid_answer self.new.width self.new.cells.items left right ≡ Some id }
        ensures others { KeepsIn (grid_answer self.old.width self.old.cells.items)
            (grid_answer self.new.width self.new.cells.items) left right id }
    {
        self.cells[left as usize * self.width + right as usize] = id;
        self.kept = self.kept.saturating_add(1);
    }
}

/// A grid of this width, with what another one answers.
pub(crate) fn larger(alloc: Global, width: usize, old: &Grid) -> Result<Grid, NoMemory>
    requires { width ≤ 1024 }
    ensures width { IfOk result (λ g. g.width ≡ width) }
    ensures answers { IfOk result (λ g. ForgetsIn (grid_answer old.now.width old.now.cells.items) (grid_answer g.width g.cells.items)) }
{
    let mut new = Grid {
        width,
        cells: vec![in alloc; NOTHING; width * width]?,
        kept: 0,
    };
    for left in 0..old.width as u32 {
        copy_row(&mut new, old, left);
    }
    Ok(new)
}

// What the old grid answers of one left number, put into the new one where it has a cell.
fn copy_row(new: &mut Grid, old: &Grid, left: TypeId)
    requires before { ForgetsIn (grid_answer old.now.width old.now.cells.items) (grid_answer new.old.width new.old.cells.items) }
    ensures width { new.new.width ≡ new.old.width }
    ensures after { ForgetsIn (grid_answer old.now.width old.now.cells.items) (grid_answer new.new.width new.new.cells.items) }
{
    for right in 0..old.width as u32 {
        copy_cell(new, old, left, right);
    }
}

// What the old grid answers of one join, put into the new one where it has a cell.
fn copy_cell(new: &mut Grid, old: &Grid, left: TypeId, right: TypeId)
    requires before { ForgetsIn (grid_answer old.now.width old.now.cells.items) (grid_answer new.old.width new.old.cells.items) }
    ensures width { new.new.width ≡ new.old.width }
    ensures after { ForgetsIn (grid_answer old.now.width old.now.cells.items) (grid_answer new.new.width new.new.cells.items) }
{
    if !old.covers(left, right) || !new.covers(left, right) {
        return;
    }
    if let Some(id) = old.find(left, right) {
        new.put(left, right, id);
    }
}
