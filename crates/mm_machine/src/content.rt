//! What the value of a number is, over the numbers of the parts that it stands on.

ghost use Rattle.std.specs.Prelude.{◌≡◌, ◌<◌, [], ◌∷◌, drop, length};
ghost use Rattle.mm_machine.specs.Parts.{views, roots, lists, Begins, IsKindOf, IsNumber};
ghost use Rattle.mm_machine.specs.Parts.{Kind as kind, nothing};
ghost use Rattle.mm_machine.specs.Blocks.{node_block, blocks};
ghost use Rattle.mm_machine.specs.Looks.{CanLook, count_in};
ghost use Rattle.mm_machine.specs.Machines.{IsPartOf};
ghost use Rattle.mm_machine.specs.Shapes.{head_shape, shapes};
ghost use Rattle.mm_machine.specs.Contents.{IsContent};
ghost use Rattle.mm_machine.specs.Shown.{shown_in};
ghost use Rattle.mm_states.specs.Lists.{AllFit};
ghost use Rattle.mm_field.specs.declared.Field.{Field};
ghost use Rattle.mm_logic.specs.Formula.{Formula};

use crate::looks::{one_parts_at, set_members_at};
use crate::part::{Kind, Node, Parts};
use crate::tables::{kind_at, pair_at};
use mm_base_auto::AtomValue;
use mm_states::TypeId;

/// The value of a number at a part, over the numbers of the parts that it stands on.
#[derive(Clone, Copy)]
pub enum Content<'a> {
    /// The type of an atom.
    Atom(AtomValue),
    /// The two parts of a connective's type.
    Pair(TypeId, TypeId),
    /// The members of a set quantifier's type, rising.
    Set(&'a [TypeId]),
    /// The unassigned part of an element quantifier's type, and its members, rising.
    One(TypeId, &'a [TypeId]),
}

fn atom_value(node: &Node, id: TypeId) -> AtomValue
    requires kind { IsKindOf (node_block node.now nothing) kind.IsAtom }
    requires id { IsNumber (views (node_block node.now nothing ∷ [])) id }
    ensures { result ≡ shown_in (node_block node.now nothing ∷ []) id }
{
    let Node::Atom(atom) = node else {
        unreachable!()
    };
    atom.value(id)
}

/// The type of a number of the atom at a place.
fn atom_value_at(parts: &Parts, at: usize, id: TypeId) -> AtomValue
    requires look { CanLook (drop at (blocks parts.now)) }
    requires kind { Begins (drop at (blocks parts.now)) kind.IsAtom }
    requires id { IsNumber (views (drop at (blocks parts.now))) id }
    ensures { result ≡ shown_in (drop at (blocks parts.now)) id }
{
    atom_value(&parts.list[at].node, id)
}

fn own_count(node: &Node) -> u32
    ensures { result ≡ count_in (node_block node.now nothing ∷ []) }
{
    match node {
        Node::Atom(atom) => atom.len(),
        Node::Not => 0,
        Node::Pair(_, table, _) => table.len(),
        Node::Set(_, _, table) => table.len(),
        Node::One(_, _, table) => table.len(),
    }
}

// How many values the list of the part at a place has.
fn own_count_at(parts: &Parts, at: usize) -> u32
    requires { at < length parts.now.list.items }
    ensures { result ≡ count_in (drop at (blocks parts.now)) }
{
    own_count(&parts.list[at].node)
}

/// How many values the part `at` has; a `not` has those of the part that it stands on.
pub(crate) fn count_at(parts: &Parts, at: usize) -> u32
    requires { CanLook (drop at (blocks parts.now)) }
    ensures { result ≡ length (roots (views (drop at (blocks parts.now)))) }
{
    match kind_at(parts, at) {
        Kind::Not => count_at(parts, at + 1),
        Kind::Atom | Kind::Pair(_) | Kind::Set | Kind::One => own_count_at(parts, at),
    }
}

/// The value of a number of the part `at`.
pub(crate) fn content_at(parts: &Parts, at: usize, id: TypeId) -> Content<'_>
    requires look { CanLook (drop at (blocks parts.now)) }
    requires id { IsNumber (views (drop at (blocks parts.now))) id }
    ensures { (F : Formula) (f : Field) → AllFit (IsPartOf F f) (views (drop at (blocks parts.now)))
        → IsContent f (head_shape (drop at (shapes parts.now.list.items))) (lists (views (drop at (blocks parts.now)))) id result }
{
    match kind_at(parts, at) {
        Kind::Atom => Content::Atom(atom_value_at(parts, at, id)),
        Kind::Not => content_at(parts, at + 1, id),
        Kind::Pair(_) => {
            let (first, second) = pair_at(parts, at, id);
            Content::Pair(first, second)
        }
        Kind::Set => Content::Set(set_members_at(parts, at, id)),
        Kind::One => {
            let (unassigned, members) = one_parts_at(parts, at, id);
            Content::One(unassigned, members)
        }
    }
}
