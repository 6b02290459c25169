ghost use Rattle.std.specs.Prelude.{◌≡◌, ◌<◌, ◌≤◌, ◌+◌, ◌-◌, ◌^◌, ℕ, [], List, length, take, IfOk, OnErr, OnOk, slice_get, Some, true, position, is_some};
ghost use Rattle.std.specs.List.{IsDistinct, list_any};
ghost use Rattle.indexmap.specs.IndexSet.{insert_key};

use indexmap::IndexSet;
use mm_base::NoMemory;
use std::alloc::Global;
use std::hash::Hash;
use std::marker::Model;

/// The number of a type: the place of its value in a list, from 0.
pub type TypeId = u32;

/// Values numbered in order of first sight, all different. Contracts see the list of the values.
#[derive(Drop)]
pub struct Table<K: Eq + Hash + Drop> {
    values: IndexSet<K>,
}

impl<K: Eq + Hash + Drop> Model for Table<K> {
    ghost Value = { List K };

    ghost view = { λ t. t.values.keys };
}

impl<K: Eq + Hash + Drop> Table<K> {
    /// A table without values.
    pub fn new(alloc: Global) -> Self
        ensures { result ≡ [] }
    {
        Table {
            values: IndexSet::new(alloc),
        }
    }

    /// How many values there are.
    pub fn len(&self) -> u32
        requires { length self.now < 2 ^ 32 }
        ensures len { result ≡ length self.now }
        ensures different { IsDistinct K.eq self.now }
    {
        self.values.len() as u32
    }

    /// The place of a value, which goes last where it is not there. After `NoMemory` the table is as before.
    pub fn put(&mut self, _alloc: Global, k: K) -> Result<TypeId, NoMemory>
        requires { length self.old < 2 ^ 32 - 1 }
        ensures values { OnOk result (self.new ≡ insert_key K.eq self.old k) }
        ensures place { IfOk result (λ id. (x : K) × (slice_get self.new id ≡ Some x) × (K.eq k x ≡ true)) }
        ensures different { OnOk result (IsDistinct K.eq self.new) }
        ensures err { OnErr result (self.new ≡ self.old) }
    {
        let (place, _) = self.values.insert_full(k)?;
        Ok(place as u32)
    }

    /// The place of a value, or `None` exactly where it is not there. No memory.
    pub fn find(&self, k: &K) -> Option<TypeId>
        requires { length self.now < 2 ^ 32 }
        ensures place { result ≡ position (K.eq k.now) self.now }
        ensures found { is_some result ≡ list_any (K.eq k.now) self.now }
    {
        match self.values.get_index_of(k) {
            Some(place) => Some(place as u32),
            None => None,
        }
    }

    /// The value at a place. No memory.
    pub fn get(&self, id: TypeId) -> &K
        requires { id < length self.now }
        ensures { slice_get self.now id ≡ Some result.now }
    {
        &self.values.as_slice()[id as usize]
    }

    /// Keeps the first n values. No memory.
    pub fn cut(&mut self, n: u32)
        requires { n ≤ length self.old }
        ensures { self.new ≡ take n self.old }
    {
        self.values.truncate(n as usize);
    }
}
