//! Whether all elements of a tree are independent: their boundary space, from the leaves up.

ghost use Rattle.std.specs.Prelude.{◌≡◌, ◌==◌, IfOk, replicate, true};
ghost use Rattle.std.specs.List.{list_all};
ghost use Rattle.mm_logic.specs.PresentMatrix.{is_independent_set};
ghost use Rattle.mm_logic.specs.Tree as shapes;
ghost use Rattle.mm_present.specs.WholeSpaces.{IsWholeSpace};
ghost use Rattle.mm_tree.specs.NamedTree.{shape};
ghost use Rattle.mm_tree.specs.Nodes.{named, named_leaf, IsOver};

use mm_base::NoMemory;
use mm_field::Field;
use mm_space::{JoinRows, Key, Vector};
use mm_tree::{Leaf, Node, Tree};
use std::alloc::Global;

/// Whether all digits of a vector are zero.
fn is_zero_vector(vec: &Vector) -> bool
    ensures { result ≡ list_all (λ d. d == 0) vec.now }
{
    for k in 0..vec.len() {
        if vec.at(k) != 0 {
            return false;
        }
    }
    true
}

/// The boundary space of all elements of a leaf. None where they are dependent.
fn space_of_leaf(f: Field, leaf: &Leaf) -> Option<Key>
    requires { shapes.IsValid f (shape (named_leaf leaf.now)) }
    ensures { IsWholeSpace f (shape (named_leaf leaf.now)) result }
{
    match &leaf.item {
        Some(item) => {
            if is_zero_vector(&item.vec) {
                return None;
            }
            Some(Key::span_of(f, &item.vec))
        }
        None => Some(Key::zero(f, leaf.t)),
    }
}

/// The boundary space of all elements of a node. None where they are dependent. The rows are room to work in.
fn space_of(f: Field, node: &Node, rows: &mut JoinRows) -> Option<Key>
    requires over { IsOver f node.now }
    requires valid { shapes.IsValid f (shape (named node.now)) }
    ensures { IsWholeSpace f (shape (named node.now)) result }
{
    match node {
        Node::Leaf(leaf) => space_of_leaf(f, leaf),
        Node::Join(_, op, left, right) => {
            let _ = op.field();
            let Some(first) = space_of(f, left, rows) else {
                return None;
            };
            let Some(second) = space_of(f, right, rows) else {
                return None;
            };
            op.join(&first, &second, rows)
        }
    }
}

/// Whether the set of all elements of the tree is independent. It takes no memory.
pub fn is_independent(_alloc: Global, tree: &Tree) -> Result<bool, NoMemory>
    ensures { IfOk result (λ b. b ≡
        is_independent_set tree.now.f (shape tree.now.tree) (replicate (shapes.size (shape tree.now.tree)) true)) }
{
    let space = space_of(tree.field(), tree.node(), &mut JoinRows::new());
    Ok(space.is_some())
}
