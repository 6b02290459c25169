//! What the lines of a certificate say.
ghost use Rattle.std.specs.Prelude.{◌≡◌, ◌++◌, [], ◌∷◌, length, IfOk, OnOk, OnErr};

use mm_base::{Name, NoMemory};
use mm_space::Key;
use std::alloc::Global;
use std::hash::{Hash, Hasher};
use std::marker::Model;

/// A word for the value of an atom other than `ind`.
#[derive(Clone, Copy, Debug, PartialEq, Eq)]
pub enum AtomWord {
    /// `unit`
    Unit,
    /// `unseen`
    Unseen,
    /// `yes`
    Yes,
    /// `no`
    No,
    /// `none`
    Neither,
    /// `onlyx`
    OnlyX,
    /// `onlyy`
    OnlyY,
    /// `same`
    Same,
    /// `diff`
    Diff,
    /// `holds`
    Holds,
    /// `fails`
    Fails,
}

/// Numbers of values, in the order in which they are written.
#[derive(Drop)]
pub struct Numbers {
    numbers: Vec<u32>,
}

impl Model for Numbers {
    ghost use Rattle.std.specs.Prelude.{List, ℕ};

    ghost Value = { List ℕ };

    ghost view = { λ n. n.numbers.items };
}

impl Numbers {
    /// No numbers.
    pub fn new(alloc: Global) -> Numbers
        ensures { result ≡ [] }
    {
        Numbers {
            numbers: Vec::new(alloc),
        }
    }

    /// The numbers.
    pub fn as_slice(&self) -> &[u32]
        ensures { result.now ≡ self.now }
    {
        &self.numbers
    }

    /// Adds a number at the end.
    pub fn add(&mut self, number: u32) -> Result<(), NoMemory>
        ensures ok { OnOk result (self.new ≡ self.old ++ number ∷ []) }
        ensures err { OnErr result (self.new ≡ self.old) }
    {
        self.numbers.push(number)?;
        Ok(())
    }
}

impl PartialEq for Numbers {
    ghost use Rattle.std.specs.Prelude.{nat_eq};
    ghost use Rattle.std.specs.Cmp.Lexicographic.{pointwise, lists_per};
    ghost use Rattle.std.specs.Cmp.{nat_eq_equiv, partial_equiv_from_equiv};

    ghost eq = { pointwise nat_eq };

    ghost laws = { lists_per (partial_equiv_from_equiv nat_eq_equiv) };

    fn eq(&self, other: &Self) -> bool {
        self.as_slice() == other.as_slice()
    }
}

impl Eq for Numbers {
    ghost use Rattle.std.specs.Prelude.{nat_eq};
    ghost use Rattle.std.specs.Cmp.Lexicographic.{lists_equiv};
    ghost use Rattle.std.specs.Cmp.{nat_eq_equiv};

    ghost laws = { lists_equiv nat_eq_equiv };
}

impl Hash for Numbers {
    ghost use Rattle.std.specs.Hash as fed;
    ghost use Rattle.mm_cert_lines.specs.Hashing.{same_numbers_fed};

    ghost hash_input = { λ ns. fed.slice fed.u32 ns };

    ghost respects_eq = { same_numbers_fed };

    fn hash<H: Hasher>(&self, state: &mut H) {
        self.as_slice().hash(state);
    }
}

/// What a `val` line says of its value.
#[derive(Drop)]
pub enum Stated {
    /// The value of an atom other than `ind`.
    Word(AtomWord),
    /// `dead`
    Dead,
    /// `space T GEN`
    Space(Key),
    /// `pair A B`
    Pair(u32, u32),
    /// `set A ..`
    Set(Numbers),
    /// `one A B ..`
    One(u32, Numbers),
}

/// What a `leaf` line is about.
#[derive(Clone, Copy, Debug, PartialEq, Eq, Hash)]
pub struct LeafKey {
    /// The number of a place of the formula.
    pub place: u32,
    /// The number of a leaf of the tree.
    pub leaf: u32,
    /// The marks of its element: bit s is set where the element is in, or is, the variable of slot s.
    pub marks: u16,
}

/// What a `glue` line is about.
#[derive(Clone, Copy, Debug, PartialEq, Eq, Hash)]
pub struct GlueKey {
    /// The number of a place of the formula.
    pub place: u32,
    /// The name of an operator.
    pub op: Name,
    /// The value of the left part.
    pub left: u32,
    /// The value of the right part.
    pub right: u32,
}

/// A line of a certificate.
#[derive(Drop)]
pub enum CertLine {
    /// `val P CONTENT`: the next value, of place P.
    Val(u32, Stated),
    /// `more A ..`: more members of the last value.
    More(Numbers),
    /// `leaf P K M V`: the value of a place at a leaf.
    Leaf(LeafKey, u32),
    /// `glue P O A B V`: the value that an operator makes of two.
    Glue(GlueKey, u32),
    /// `node`: the next node of the tree.
    Node,
    /// `has V`: the type of the node.
    Has(u32),
    /// `has V W X Y`: a type of the node, the weight of its lightest set, and where this set is from.
    HasSet(u32, i64, u32, u32),
    /// `end`
    End,
}
