//! Why a tree may not take the place of a node.

ghost use Rattle.std.specs.Prelude.{◌≡◌, ◌<◌, ◌≤◌, ◌+◌, Some, None, OnOk};
ghost use Rattle.std.specs.List.{position};
ghost use Rattle.std.specs.Str.{bytes_eq};
ghost use Rattle.indexmap.specs.IndexSet.{insert_all};
ghost use Rattle.mm_base.specs.contracts.name.NamePartialEq.TheImpl.{eq-value};
ghost use Rattle.mm_tree.specs.NamedTree.{leaf_names, nodes};
ghost use Rattle.mm_tree.specs.Nodes.{named};
ghost use Rattle.mm_tree.specs.declared.replace.ReplaceFault.TheVariants.{NoMemory as no_memory};
ghost use Rattle.mm_tree.specs.Replacing.{is_leaf_of};
ghost use Rattle.mm_tree.specs.OutsideLeaves.{IsSeen, IsOneLess, first_place, with_leaf};

use crate::Node;
use crate::walk::has_leaf;
use indexmap::IndexSet;
use mm_base::{Name, NoMemory};
use thiserror::Error;

/// Why a tree may not take the place of a node of another, the first that applies.
#[derive(Clone, Copy, Debug, PartialEq, Eq, Error)]
pub enum ReplaceFault {
    /// The boundary of the node and that of the new tree differ; both.
    #[error("the boundaries {0} and {1} differ")]
    Boundary(u8, u8),
    /// A leaf outside the node has the name of a leaf of the new tree; the first such name.
    #[error("a name is taken")]
    NameTaken(Name),
    /// The tree would have more than 8192 leaves.
    #[error("there are too many leaves")]
    TooManyLeaves,
    /// A leaf would be deeper than 1023.
    #[error("the tree is too deep")]
    TooDeep,
    /// Memory ran out.
    #[error("memory ran out")]
    NoMemory,
}

impl From<NoMemory> for ReplaceFault {
    ghost from_gives = { λ _ e. e ≡ no_memory };

    fn from(_: NoMemory) -> Self {
        ReplaceFault::NoMemory
    }
}

/// What was seen of the leaves outside a node.
#[derive(Clone, Copy)]
pub(crate) struct Outside {
    /// How many they are.
    pub(crate) leaves: usize,
    /// The first of some names that one of them has, by its place.
    pub(crate) taken: Option<usize>,
}

/// The place of a name in a set.
fn place_in(names: &IndexSet<Name>, name: &Name) -> Option<usize>
    ensures { result ≡ position (bytes_eq name.now) names.now.keys }
{
    // most trees that are put in have one leaf: its name is compared and not looked up
    if let [only] = names.as_slice() {
        return if *name == *only { Some(0) } else { None };
    }
    names.get_index_of(name)
}

/// The first of two places, where there are some.
fn first_place(one: Option<usize>, other: Option<usize>) -> Option<usize>
    ensures { result ≡ first_place one other }
{
    match (one, other) {
        (None, place) => place,
        (place, None) => place,
        (Some(i), Some(j)) => Some(i.min(j)),
    }
}

impl Outside {
    /// No leaf was seen.
    pub(crate) fn nothing() -> Outside
        ensures { result ≡ record { leaves = 0; taken = None } }
    {
        Outside {
            leaves: 0,
            taken: None,
        }
    }

    /// Sees a leaf of this name.
    fn see(&mut self, names: &IndexSet<Name>, name: &Name)
        requires { self.old.leaves < 16383 }
        ensures { self.new ≡ with_leaf names.now.keys self.old name.now }
    {
        self.leaves += 1;
        self.taken = first_place(self.taken, place_in(names, name));
    }
}

/// Sees the leaves below `node` that are not below the node of number `at`, counted from `node`, and gives what is left of the number
/// where it is beyond.
pub(crate) fn see_outside(
    node: &Node,
    at: Option<u32>,
    names: &IndexSet<Name>,
    seen: &mut Outside,
) -> Option<u32>
    requires room { seen.old.leaves + nodes (named node.now) ≤ 16383 }
    ensures { IsSeen (named node.now) at names.now.keys seen.old seen.new result }
{
    if at == Some(0) {
        return None;
    }
    match node {
        Node::Leaf(leaf) => {
            seen.see(names, &leaf.name);
            one_less(at)
        }
        Node::Join(_, _, left, right) => {
            let rest = see_outside(left, one_less(at), names, seen);
            see_outside(right, rest, names, seen)
        }
    }
}

/// The number of a node, counted on by one.
fn one_less(at: Option<u32>) -> Option<u32>
    requires { at ≡ Some 0 → ⊥ }
    ensures { IsOneLess at result }
{
    match at {
        Some(k) => Some(k - 1),
        None => None,
    }
}

/// Whether a node is a leaf with the name of a leaf below another one.
#[tactic(auto, unfolding(crate::specs::Nodes::named), using(crate::proofs::PartLemmas::leaf_below))]
pub(crate) fn is_leaf_of(new: &Node, old: &Node) -> bool
    ensures { result ≡ is_leaf_of (named new.now) (named old.now) }
{
    match new {
        Node::Leaf(leaf) => has_leaf(old, &leaf.name),
        Node::Join(_, _, _, _) => false,
    }
}

/// Adds the names of the leaves below a node to a set.
pub(crate) fn add_names(node: &Node, names: &mut IndexSet<Name>) -> Result<(), NoMemory>
    ensures { OnOk result (names.new.keys ≡ insert_all (eq-value).it names.old.keys (leaf_names (named node.now))) }
{
    match node {
        Node::Leaf(leaf) => match names.insert(leaf.name) {
            Ok(_) => Ok(()),
            Err(_) => Err(NoMemory),
        },
        Node::Join(_, _, left, right) => {
            add_names(left, names)?;
            add_names(right, names)
        }
    }
}
