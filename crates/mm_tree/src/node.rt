//! The nodes of a tree.

ghost use Rattle.std.specs.Prelude.{◌≡◌, true};
ghost use Rattle.mm_base.specs.Names.{is_name};

use mm_base::Name;
use mm_field::Field;
use mm_ops::Op;
use mm_space::Vector;

/// The element of a leaf.
#[derive(Clone, Copy, Debug, PartialEq, Eq)]
pub struct Item {
    /// The boundary vector of the element.
    pub vec: Vector,
    /// The weight of the element, from -10^12 to 10^12.
    pub weight: i64,
}

/// A leaf, with an element or without one.
#[derive(Clone, Copy, Debug, PartialEq, Eq)]
pub struct Leaf {
    /// The field of the tree.
    pub field: Field,
    /// The name of the leaf.
    pub name: Name,
    /// The boundary of the leaf: how many digits its vector has, where it has an element.
    pub t: u8,
    /// The element, if there is one.
    pub item: Option<Item>,
}

/// A node of a tree: a leaf, or a join by an operator of that name.
#[derive(Drop)]
pub enum Node {
    Leaf(Leaf),
    Join(Name, Op, Box<Node>, Box<Node>),
}

/// The law that a name has the form of a name.
pub(crate) fn names_have_their_form(name: &Name)
    ensures { is_name name.now ≡ true }
{
    let _ = name.bytes();
}
