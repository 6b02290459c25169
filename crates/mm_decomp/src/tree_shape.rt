//! The shape of the elements of a tree.

ghost use Rattle.std.specs.Prelude.{◌≡◌, ◌≤◌, length, IfOk};
ghost use Rattle.std.specs.Option.{option_map};
ghost use Rattle.mm_tree.specs.NamedTree.{element_names};
ghost use Rattle.mm_tree.specs.Nodes.{named, named_leaf};
ghost use Rattle.mm_decomp.specs.Shapes.{most_leaves};
ghost use Rattle.mm_decomp.specs.TreeShapes.{element_shape, steps_of, Follows};

use crate::{Shape, Step};
use mm_base::NoMemory;
use mm_tree::{Leaf, Node, Tree};
use std::alloc::Global;

/// The joins of a tree over its elements, with their weights; a join without elements on one side is its other side. None exactly
/// where the tree has no element.
pub fn shape_of(alloc: Global, tree: &Tree) -> Result<Option<Shape>, NoMemory>
    requires { length (element_names tree.now.tree) ≤ most_leaves }
    ensures { IfOk result (λ shape. shape ≡ option_map steps_of (element_shape tree.now.tree)) }
{
    let mut steps = Vec::new(alloc);
    match push_node(tree.node(), &mut steps)? {
        true => Ok(Some(Shape::of(steps))),
        false => Ok(None),
    }
}

/// Puts the steps of the elements below a node after the others, and says whether there is an element.
fn push_node(node: &Node, steps: &mut Vec<Step>) -> Result<bool, NoMemory>
    ensures { IfOk result (λ some. Follows (element_shape (named node.now)) steps.old.items steps.new.items some) }
{
    match node {
        Node::Leaf(leaf) => push_leaf(leaf, steps),
        Node::Join(_, _, left, right) => {
            let on_left = push_node(left, steps)?;
            let on_right = push_node(right, steps)?;
            if !on_left {
                return Ok(on_right);
            }
            if !on_right {
                return Ok(true);
            }
            steps.push(Step::Join)?;
            Ok(true)
        }
    }
}

/// Puts the step of a leaf after the others, where it has an element, and says whether it has.
fn push_leaf(leaf: &Leaf, steps: &mut Vec<Step>) -> Result<bool, NoMemory>
    ensures { IfOk result (λ some. Follows (element_shape (named_leaf leaf.now)) steps.old.items steps.new.items some) }
{
    match &leaf.item {
        Some(item) => {
            steps.push(Step::Leaf(leaf.name, item.weight))?;
            Ok(true)
        }
        None => Ok(false),
    }
}
