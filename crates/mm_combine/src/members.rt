ghost use Rattle.std.specs.Prelude.{◌≡◌, ◌<◌, ◌≤◌, ◌+◌, ◌%◌, ◌^◌, ℕ, [], IfOk, OnOk, OnErr, length, slice_index, if◌then◌else◌};
ghost use Rattle.std.specs.Ordering.{nat_cmp};
ghost use Rattle.mm_logic.specs.Order as order;
ghost use Rattle.mm_combine.specs.Digests.{mixed, mixed_sum};

use crate::marked::TableKey;
use mm_base::NoMemory;
use mm_states::TypeId;
use smallvec::SmallVec;
use std::alloc::{AllocError, Global};
use std::hash::{Hash, Hasher};
use std::marker::Model;

/// Numbers in rising order, with a digest of them, by which they are hashed.
#[derive(Drop)]
pub struct Members {
    ids: SmallVec<u32, 6>,
    digest: u64,
}

impl Model for Members {
    ghost use Rattle.std.specs.Prelude.{◌≡◌, List, ℕ};
    ghost use Rattle.std.specs.Ordering.{nat_cmp};
    ghost use Rattle.mm_logic.specs.Order as order;
    ghost use Rattle.mm_combine.specs.Digests.{digest_of};

    ghost Value = { List ℕ };

    ghost view = { λ m. m.ids.items };

    ghost invariant = { λ m. order.Rising nat_cmp m.ids.items × (m.digest ≡ digest_of m.ids.items) };
}

// The first place whose number is not below id.
fn place_of(ids: &[u32], id: u32) -> usize
    ensures within { result ≤ length ids.now }
    ensures below { (k : ℕ) → k < result → slice_index ids.now k < id }
    ensures above { result < length ids.now → id ≤ slice_index ids.now result }
{
    for (i, x) in ids.iter().enumerate() {
        if *x >= id {
            return i;
        }
    }
    ids.len()
}

// Puts a number at its place, unless it is there, and says whether it is new.
fn put_in_order(ids: &mut SmallVec<u32, 6>, id: u32) -> Result<bool, AllocError>
    ensures ok { OnOk result (ids.new.items ≡ order.insert nat_cmp id ids.old.items) }
    ensures total { IfOk result (λ new. mixed_sum ids.new.items ≡ mixed_sum ids.old.items + (if new then mixed id else 0)) }
    ensures rising { order.Rising nat_cmp ids.old.items → order.Rising nat_cmp ids.new.items }
    ensures err { OnErr result (ids.new ≡ ids.old) }
{
    let place = place_of(ids.as_slice(), id);
    if place == ids.len() {
        ids.push(id)?;
        return Ok(true);
    }
    if ids.as_slice()[place] == id {
        return Ok(false);
    }
    ids.insert(place, id)?;
    Ok(true)
}

// The number of a member, mixed.
fn mixed(id: u32) -> u64
    ensures value { result ≡ mixed id }
    ensures small { result < 2 ^ 64 }
{
    let spread = (u64::from(id) + 1).wrapping_mul(11_400_714_819_323_198_485);
    spread.wrapping_mul(spread >> 32)
}

impl Members {
    /// No numbers.
    pub fn new(alloc: Global) -> Self
        ensures { result ≡ [] }
    {
        Members {
            ids: SmallVec::new(alloc),
            digest: 0,
        }
    }

    /// How many numbers there are.
    pub fn len(&self) -> usize
        ensures { result ≡ length self.now }
    {
        self.ids.len()
    }

    /// The numbers, rising.
    pub fn ids(&self) -> &[TypeId]
        ensures ids { result.now ≡ self.now }
        ensures rising { order.Rising nat_cmp self.now }
    {
        self.ids.as_slice()
    }

    /// Adds a number, unless it is there.
    pub fn add(&mut self, _alloc: Global, id: TypeId) -> Result<(), NoMemory>
        ensures ok { OnOk result (self.new ≡ order.insert nat_cmp id self.old) }
        ensures err { OnErr result (self.new ≡ self.old) }
    {
        if put_in_order(&mut self.ids, id)? {
            self.digest = self.digest.wrapping_add(mixed(id));
        }
        Ok(())
    }
}

impl PartialEq for Members {
    ghost use Rattle.std.specs.Prelude.{nat_eq};
    ghost use Rattle.std.specs.Cmp.Lexicographic.{pointwise, lists_per};
    ghost use Rattle.std.specs.Cmp.{nat_eq_equiv, partial_equiv_from_equiv};

    ghost eq = { pointwise nat_eq };

    ghost laws = { lists_per (partial_equiv_from_equiv nat_eq_equiv) };

    fn eq(&self, other: &Self) -> bool {
        self.ids.as_slice() == other.ids.as_slice()
    }
}

impl Eq for Members {
    ghost use Rattle.std.specs.Prelude.{nat_eq};
    ghost use Rattle.std.specs.Cmp.Lexicographic.{lists_equiv};
    ghost use Rattle.std.specs.Cmp.{nat_eq_equiv};

    ghost laws = { lists_equiv nat_eq_equiv };
}

impl Hash for Members {
    ghost use Rattle.std.proofs.Common.{rules};
    ghost use Rattle.std.specs.Hash as fed;
    ghost use Rattle.mm_combine.specs.Digests.{digest_of};
    ghost use Rattle.mm_combine.specs.DigestLaws.{same_fed};

    ghost hash_input = { λ ids. fed.u64 (digest_of ids) };

    ghost respects_eq = { same_fed };

    fn hash<H: Hasher>(&self, state: &mut H) {
        state.write_u64(self.digest);
    }
}

impl TableKey for Members {
    ghost use Rattle.std.specs.Prelude.{suc, length};
    ghost use Rattle.mm_combine.specs.Sizes.{one_at_least};

    ghost size = { λ ids. suc (length ids) };

    ghost some = { λ ids. one_at_least (length ids) };

    fn cells(&self) -> u64 {
        1 + self.ids.as_slice().len() as u64
    }

    fn copy(&self, alloc: Global) -> Result<Self, NoMemory> {
        Ok(Members {
            ids: SmallVec::from_slice(alloc, self.ids.as_slice())?,
            digest: self.digest,
        })
    }
}
