//! The list of the flags of an atom.

ghost use Rattle.std.specs.Prelude.{◌≡◌, ℕ, ◌<◌, ◌≤◌, ◌+◌, ◌^◌, Some, IfSome, IfNone, length, take, nat_eq, slice_index_or, slice_get, false, [], ◌∷◌, ◌++◌, OnOk, OnErr};
ghost use Rattle.std.specs.List.{list_any};
ghost use Rattle.mm_combine.specs.Puts.{PutsKey};

use mm_base::NoMemory;
use mm_states::{AutoFault, TypeId};
use smallvec::SmallVec;
use std::alloc::Global;

/// Flags numbered in order of first sight, and how many there were at the last mark. An atom has at most five, so they stand in place.
#[derive(Drop)]
pub(crate) struct FlagTable {
    flags: SmallVec<u8, 8>,
    mark: usize,
    ghost within: { mark ≤ length flags.items },
    ghost few: { length flags.items < 2 ^ 32 },
}

impl FlagTable {
    /// No flags, and a mark there.
    pub(crate) fn new(alloc: Global) -> FlagTable
        ensures flags { result.flags.items ≡ [] }
        ensures mark { result.mark ≡ 0 }
    {
        FlagTable {
            flags: SmallVec::new(alloc),
            mark: 0,
        }
    }

    /// How many flags there are.
    pub(crate) fn len(&self) -> u32
        ensures { result ≡ length self.now.flags.items }
    {
        self.flags.len() as u32
    }

    /// The cells of the flags: each takes one.
    pub(crate) fn cells(&self) -> u64
        ensures { result ≡ length self.now.flags.items }
    {
        self.flags.len() as u64
    }

    /// The flag of a number.
    #[inline]
    pub(crate) fn get(&self, id: TypeId) -> u8
        requires { id < length self.now.flags.items }
        ensures { result ≡ slice_index_or self.now.flags.items id result }
    {
        self.flags.as_slice()[id as usize]
    }

    /// Marks the present flags.
    pub(crate) fn mark(&mut self)
        ensures flags { self.new.flags.items ≡ self.old.flags.items }
        ensures mark { self.new.mark ≡ length self.old.flags.items }
    {
        self.mark = self.flags.len();
    }

    /// Goes back to the flags at the last mark.
    pub(crate) fn roll_back(&mut self)
        ensures flags { self.new.flags.items ≡ take self.old.mark self.old.flags.items }
        ensures mark { self.new.mark ≡ self.old.mark }
    {
        self.flags.truncate(self.mark);
    }

    /// The number of a flag, which goes last where it is not there. `Full` exactly where it is not there and the room is 0. After a
    /// refusal the table is as before.
    pub(crate) fn put(&mut self, alloc: Global, flag: u8, room: u64) -> Result<TypeId, AutoFault>
        requires { length self.old.flags.items + room < 2 ^ 32 }
        ensures mark { self.new.mark ≡ self.old.mark }
        ensures kept { take self.old.mark self.new.flags.items ≡ take self.old.mark self.old.flags.items }
        ensures answer { PutsKey nat_eq (λ k. 1) flag self.old.flags.items self.new.flags.items room result }
    {
        match place_of(self.flags.as_slice(), flag) {
            Some(id) => Ok(id as u32),
            None => {
                if room == 0 {
                    return Err(AutoFault::Full);
                }
                let id = self.flags.len() as u32;
                self.push(alloc, flag)?;
                Ok(id)
            }
        }
    }

    fn push(&mut self, _alloc: Global, flag: u8) -> Result<(), NoMemory>
        requires { length self.old.flags.items + 1 < 2 ^ 32 }
        ensures mark { self.new.mark ≡ self.old.mark }
        ensures ok { OnOk result (self.new.flags.items ≡ self.old.flags.items ++ flag ∷ []) }
        ensures err { OnErr result (self.new ≡ self.old) }
    {
        self.flags.push(flag)?;
        Ok(())
    }
}

// The place of a flag.
fn place_of(flags: &[u8], flag: u8) -> Option<usize>
    ensures some { IfSome result (λ k. slice_get flags.now k ≡ Some flag) }
    ensures none { IfNone result (list_any (nat_eq flag) flags.now ≡ false) }
{
    for (i, other) in flags.iter().enumerate() {
        if *other == flag {
            return Some(i);
        }
    }
    None
}
