//! The answers of many joins, one at a place: a later one takes the place of an earlier one.

ghost use Rattle.std.specs.Prelude.{◌≡◌, ◌<◌, ◌^◌, ◌*◌, ◌+◌, ◌%◌, ◌/◌, ◌-◌, None, Some, true, [], ◌≤◌, IfOk, IfSome, OnOk};
ghost use Rattle.mm_states.specs.Cells.{cache_answer, spread, Forgets, Keeps};

use crate::grid::NOTHING;
use crate::table::TypeId;
use mm_base::NoMemory;
use std::alloc::Global;

/// How many places a cache begins with: two to this power.
const FIRST_BITS: u32 = 10;

/// How many places a cache has at most: two to this power.
const MAX_BITS: u32 = 18;

/// By how many bits it grows.
const GROWTH: u32 = 2;

/// A join by the number of its operator, with its own number, or a place without one.
#[derive(Clone, Copy)]
pub(crate) struct Slot {
    op: u32,
    left: TypeId,
    right: TypeId,
    id: TypeId,
}

/// A place without a join.
const EMPTY: Slot = Slot {
    op: 0,
    left: 0,
    right: 0,
    id: NOTHING,
};

/// The joins that were kept last, each at the one place that it may have.
#[derive(Drop)]
pub(crate) struct Cache {
    slots: Vec<Slot>,
    /// What a spread join is shifted by to its place: 64 less the power of two that the places are.
    shift: u32,
    /// How many joins were kept since it grew.
    kept: usize,
    ghost few: { shift < 64 },
}

// Spreads a join over 64 bits; the first of them choose its place.
#[inline]
fn spread(op: u32, left: TypeId, right: TypeId) -> u64
    ensures value { result ≡ spread op left right }
    ensures small { result < 2 ^ 64 }
{
    let parts = u64::from(left) * 4_294_967_296 + u64::from(right);
    let mixed = parts.wrapping_add(u64::from(op).wrapping_mul(13_787_848_793_156_543_929));
    mixed.wrapping_mul(11_400_714_819_323_198_485)
}

impl Cache {
    /// A cache without places. It takes no memory.
    pub(crate) fn new(alloc: Global) -> Cache
        ensures { result.slots.items ≡ [] }
    {
        Cache {
            slots: Vec::new(alloc),
            shift: 63,
            kept: 0,
        }
    }

    // The place of a join.
    #[inline]
    fn place(&self, op: u32, left: TypeId, right: TypeId) -> usize
        ensures { result ≡ spread op left right / 2 ^ self.now.shift }
    {
        (spread(op, left, right) >> self.shift) as usize
    }

    /// The number of a join, where it was kept and none has taken its place.
    #[inline]
    pub(crate) fn find(&self, op: u32, left: TypeId, right: TypeId) -> Option<TypeId>
        ensures answer { result ≡ cache_answer self.now.shift self.now.slots.items op left right }
        ensures number { IfSome result (λ id. id < 4294967295) }
    {
        match self.slots.get(self.place(op, left, right)) {
            Some(slot) => {
                if slot.op == op && slot.left == left && slot.right == right && slot.id != NOTHING {
                    Some(slot.id)
                } else {
                    None
                }
            }
            None => None,
        }
    }

    // Puts a join at its place, where there is one, and says whether there is.
    fn put(&mut self, op: u32, left: TypeId, right: TypeId, id: TypeId) -> bool
        requires { id < 4294967295 }
        ensures shift { self.new.shift ≡ self.old.shift }
        ensures there { result ≡ true → cache_answer self.new.shift self.new.slots.items op left right ≡ Some id }
        ensures others { Keeps (cache_answer self.old.shift self.old.slots.items)
            (cache_answer self.new.shift self.new.slots.items) op left right id }
    {
        let place = self.place(op, left, right);
        if place >= self.slots.len() {
            return false;
        }
        self.slots[place] = Slot {
            op,
            left,
            right,
            id,
        };
        true
    }

    /// Keeps the number of a join, in place of the one that had its place.
    pub(crate) fn keep(
        &mut self,
        alloc: Global,
        op: u32,
        left: TypeId,
        right: TypeId,
        id: TypeId,
    ) -> Result<(), NoMemory>
        requires { id < 4294967295 }
        ensures there { OnOk result (cache_answer self.new.shift self.new.slots.items op left right ≡ Some id) }
        ensures others { Keeps (cache_answer self.old.shift self.old.slots.items)
            (cache_answer self.new.shift self.new.slots.items) op left right id }
    {
        self.make_places(alloc);
        self.kept = self.kept.saturating_add(1);
        if self.put(op, left, right, id) {
            Ok(())
        } else {
            Err(NoMemory)
        }
    }

    /// Forgets all. No memory.
    pub(crate) fn clear(&mut self)
        ensures { self.new.slots.items ≡ [] }
    {
        self.slots.clear();
        self.kept = 0;
    }

    // Makes more places where there are fewer than joins were kept, and where memory allows it.
    fn make_places(&mut self, alloc: Global)
        ensures { Forgets (cache_answer self.old.shift self.old.slots.items) (cache_answer self.new.shift self.new.slots.items) }
    {
        if self.kept < self.slots.len() {
            return;
        }
        let bits = if self.slots.is_empty() {
            FIRST_BITS
        } else {
            64 - self.shift + GROWTH
        };
        if bits > MAX_BITS {
            return;
        }
        if let Ok(larger) = larger(alloc, bits, self) {
            *self = larger;
        }
    }
}

// A cache with two to the power of bits places, with what another one answers.
fn larger(alloc: Global, bits: u32, old: &Cache) -> Result<Cache, NoMemory>
    requires bits { bits ≤ 18 }
    requires some { 0 < bits }
    ensures { IfOk result (λ c. Forgets (cache_answer old.now.shift old.now.slots.items) (cache_answer c.shift c.slots.items)) }
{
    let mut new = Cache {
        slots: vec![in alloc; EMPTY; 1 << bits]?,
        shift: 64 - bits,
        kept: 0,
    };
    for slot in old.slots.as_slice() {
        copy_slot(&mut new, old, slot);
    }
    Ok(new)
}

// Puts the join of a place into a cache, where the old one answers it.
fn copy_slot(new: &mut Cache, old: &Cache, slot: &Slot)
    requires { Forgets (cache_answer old.now.shift old.now.slots.items) (cache_answer new.old.shift new.old.slots.items) }
    ensures { Forgets (cache_answer old.now.shift old.now.slots.items) (cache_answer new.new.shift new.new.slots.items) }
{
    if let Some(id) = old.find(slot.op, slot.left, slot.right) {
        new.put(slot.op, slot.left, slot.right, id);
    }
}
