//! Different names in the order in which they were given.
ghost use Rattle.std.specs.Prelude.{◌≡◌, ◌++◌, ◌∷◌, [], length, false, IfOk, OnOk, OnErr};
ghost use Rattle.mm_tree.specs.NamedTree.{is_one_of};

use indexmap::IndexSet;
use mm_base::{Name, NameList, NoMemory};
use std::alloc::Global;
use std::marker::Model;

/// Different names in the order in which they were given, seen as a list. Whether a name is among them is found by its hash.
#[derive(Drop)]
pub struct NameSet {
    names: IndexSet<Name>,
}

impl Model for NameSet {
    ghost use Rattle.std.specs.Prelude.{List, ℕ};

    ghost Value = { List (List ℕ) };

    ghost view = { λ s. s.names.keys };
}

/// The names as a list.
fn list_of(alloc: Global, names: &[Name]) -> Result<NameList, NoMemory>
    ensures { IfOk result (λ list. list ≡ names.now) }
{
    let mut list = NameList::new(alloc);
    for name in names {
        list.push(alloc, *name)?;
    }
    Ok(list)
}

impl NameSet {
    /// No names. It takes no memory yet.
    pub fn new(alloc: Global) -> NameSet
        ensures { result ≡ [] }
    {
        NameSet {
            names: IndexSet::new(alloc),
        }
    }

    /// How many names there are.
    pub fn len(&self) -> usize
        ensures { result ≡ length self.now }
    {
        self.names.len()
    }

    /// Whether a name is among them.
    pub fn contains(&self, name: &Name) -> bool
        ensures { result ≡ is_one_of name.now self.now }
    {
        self.names.contains(name)
    }

    /// Adds a name that is not among them, at the end. Without memory they stay as they are.
    pub fn insert(&mut self, _alloc: Global, name: Name) -> Result<(), NoMemory>
        requires { is_one_of name self.old ≡ false }
        ensures ok { OnOk result (self.new ≡ self.old ++ name ∷ []) }
        ensures err { OnErr result (self.new ≡ self.old) }
    {
        self.names.insert(name)?;
        Ok(())
    }

    /// The names as a list.
    pub fn to_list(&self, alloc: Global) -> Result<NameList, NoMemory>
        ensures { IfOk result (λ list. list ≡ self.now) }
    {
        list_of(alloc, self.names.as_slice())
    }
}
