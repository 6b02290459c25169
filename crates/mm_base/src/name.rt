//! Names of elements, leaves and operators.
ghost use Rattle.std.specs.Prelude.{◌≡◌, ◌≤◌, ◌<◌, ◌-◌, ◌++◌, [], ◌∷◌, ◌↔◌, List, ℕ, length, IsTrue, OnOk, OnErr, take, drop, replicate, slice_get, Some, true};
ghost use Rattle.std.specs.List.{list_all};
ghost use Rattle.mm_base.specs.Names.{is_name, is_name_byte, name_of};

use crate::NoMemory;
use std::alloc::Global;
use std::hash::{Hash, Hasher};
use std::marker::Model;

/// The most bytes of a name.
const MAX_NAME: usize = 16;

/// A name: a lower-case letter and then lower-case letters, digits and underscores, 1 to 16 bytes in all.
///
/// It is kept in place, so that a copy is a plain move and a look-up hashes no far memory.
#[derive(Clone, Copy, Debug)]
pub struct Name {
    /// The name, and zeros after it, so that equal names have equal fields.
    bytes: [u8; 16],
    /// How many bytes the name has, 1 to 16.
    len: usize,
}

impl Model for Name {
    ghost use Rattle.std.specs.Prelude.{List, ℕ};

    ghost Value = { List ℕ };

    ghost use Rattle.mm_base.specs.NameFields.{text_of, IsPadded, fields_of, fields_of-text_of};

    ghost view = { text_of };

    ghost invariant = { IsPadded };

    ghost inverse = { fields_of };

    ghost inverse_ok = { fields_of-text_of };
}

impl PartialEq for Name {
    ghost use Rattle.std.specs.Str.{bytes_eq};
    ghost use Rattle.std.specs.Cmp.{partial_equiv_from_equiv};
    ghost use Rattle.std.proofs.lemmas.Cmp.{nat_list_eq_equiv};

    ghost eq = { bytes_eq };

    ghost laws = { partial_equiv_from_equiv nat_list_eq_equiv };

    #[inline(always)]
    fn eq(&self, other: &Self) -> bool {
        u128::from_le_bytes(self.bytes) == u128::from_le_bytes(other.bytes) && self.len == other.len
    }
}

impl Eq for Name {
    ghost use Rattle.std.proofs.lemmas.Cmp.{nat_list_eq_equiv};

    ghost laws = { nat_list_eq_equiv };
}

impl Hash for Name {
    ghost use Rattle.std.specs.Hash as fed;
    ghost use Rattle.mm_base.specs.NameFields.{number_of, same_number};

    ghost hash_input = { λ name. fed.u128 (number_of name) };

    ghost respects_eq = { same_number };

    #[inline(always)]
    fn hash<H: Hasher>(&self, state: &mut H) {
        state.write_u128(u128::from_le_bytes(self.bytes));
    }
}

fn is_name_byte(b: u8) -> bool
    ensures { result ≡ is_name_byte b }
{
    b.is_ascii_lowercase() || b.is_ascii_digit() || b == b'_'
}

fn are_name_bytes(bytes: &[u8]) -> bool
    ensures { result ≡ list_all is_name_byte bytes.now }
{
    bytes.iter().all(|b| is_name_byte(*b))
}

fn is_name(bytes: &[u8]) -> bool
    ensures { result ≡ is_name bytes.now }
{
    match bytes {
        [] => false,
        [first, rest @ ..] => {
            first.is_ascii_lowercase() && rest.len() < MAX_NAME && are_name_bytes(rest)
        }
    }
}

impl Name {
    /// The name that the bytes spell. None exactly where they are outside the form of a name.
    pub fn read(bytes: &[u8]) -> Option<Name>
        ensures { result ≡ name_of bytes.now }
    {
        if !is_name(bytes) {
            return None;
        }
        let mut kept = [0u8; MAX_NAME];
        kept[..bytes.len()].copy_from_slice(bytes);
        Some(Name {
            bytes: kept,
            len: bytes.len(),
        })
    }

    /// The bytes of the name.
    pub fn bytes(&self) -> &[u8]
        ensures text { result.now ≡ self.now }
        ensures form { is_name self.now ≡ true }
    {
        &self.bytes[..self.len]
    }
}

/// A list of names, in the order in which they were added.
#[derive(Drop)]
pub struct NameList {
    names: Vec<Name>,
}

impl Model for NameList {
    ghost Value = { List (List ℕ) };

    ghost view = { λ l. l.names.items };
}

impl NameList {
    /// The empty list. It takes no memory yet.
    pub fn new(alloc: Global) -> NameList
        ensures { result ≡ [] }
    {
        NameList {
            names: Vec::new(alloc),
        }
    }

    /// Adds a name at the end. Without memory the list stays as it is.
    pub fn push(&mut self, _alloc: Global, name: Name) -> Result<(), NoMemory>
        ensures ok { OnOk result (self.new ≡ self.old ++ name ∷ []) }
        ensures err { OnErr result (self.new ≡ self.old) }
    {
        self.names.push(name)?;
        Ok(())
    }

    /// How many names the list has.
    pub fn len(&self) -> usize
        ensures { result ≡ length self.now }
    {
        self.names.len()
    }

    /// The name at place `k`, from 0.
    pub fn at(&self, k: usize) -> Name
        requires { k < length self.now }
        ensures { slice_get self.now k ≡ Some result }
    {
        self.names[k]
    }
}
