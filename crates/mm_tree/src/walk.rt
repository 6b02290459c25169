//! What is read off the nodes of a tree, each by one walk that stops as soon as it can.

ghost use Rattle.std.specs.Prelude.{◌≡◌, ◌≤◌, ◌++◌, ◌&&◌, OnOk, if◌then◌else◌};
ghost use Rattle.mm_field.specs.declared.Field.{Field};
ghost use Rattle.std.specs.Str.{bytes_eq};
ghost use Rattle.mm_tree.specs.NamedTree.{boundary, depth, nodes, leaf_names, element_names, is_one_of};
ghost use Rattle.mm_tree.specs.Nodes.{named, named_leaf, field_of, IsOver};
ghost use Rattle.mm_tree.specs.Steps.{IsReweighted};
ghost use Rattle.mm_tree.specs.Nodes.{reweighted};
ghost use Rattle.std.specs.Option.{is_some};
ghost use Rattle.mm_tree.specs.Weights.{weight_named};

use crate::{Leaf, Node};
use mm_base::{Name, NameList, NoMemory};
use mm_field::Field;
use std::alloc::Global;

/// The field of the first leaf or operator.
#[tactic(auto, unfolding(crate::specs::Nodes::field_of))]
pub(crate) fn field_of(node: &Node) -> Field
    ensures { result ≡ field_of node.now }
{
    match node {
        Node::Leaf(leaf) => leaf.field,
        Node::Join(_, op, _, _) => op.field(),
    }
}

/// How many digits the boundary of a leaf has.
#[tactic(auto, unfolding(crate::specs::NamedTree::boundary))]
fn leaf_boundary(leaf: &Leaf) -> u8
    ensures { result ≡ boundary (named_leaf leaf.now) }
{
    match &leaf.item {
        Some(item) => item.vec.len(),
        None => leaf.t,
    }
}

/// How many digits the boundary has.
#[tactic(auto, unfolding(crate::specs::Nodes::named, crate::specs::NamedTree::boundary))]
pub(crate) fn boundary(node: &Node) -> u8
    ensures { result ≡ boundary (named node.now) }
{
    match node {
        Node::Leaf(leaf) => leaf_boundary(leaf),
        Node::Join(_, op, _, _) => op.t3(),
    }
}

/// How many joins stand above the deepest leaf.
#[tactic(auto, unfolding(crate::specs::Nodes::named, crate::specs::NamedTree::depth), using(crate::proofs::Walks::leaf_depth))]
pub(crate) fn depth(node: &Node) -> u32
    requires { depth (named node.now) ≤ 1023 }
    ensures { result ≡ depth (named node.now) }
{
    match node {
        Node::Leaf(_) => 0,
        Node::Join(_, _, left, right) => depth(left).max(depth(right)) + 1,
    }
}

/// How many nodes there are.
#[tactic(auto, unfolding(crate::specs::Nodes::named, crate::specs::NamedTree::nodes), using(crate::proofs::Walks::leaf_nodes))]
pub(crate) fn nodes(node: &Node) -> u32
    requires { nodes (named node.now) ≤ 16383 }
    ensures { result ≡ nodes (named node.now) }
{
    match node {
        Node::Leaf(_) => 1,
        Node::Join(_, _, left, right) => nodes(left) + nodes(right) + 1,
    }
}

/// Whether the leaf has the name.
#[tactic(auto, using(mm_base::proofs::NameLemmas::name_eq))]
pub(crate) fn is_named(leaf: &Leaf, name: &Name) -> bool
    ensures { result ≡ bytes_eq name.now leaf.now.name }
{
    *name == leaf.name
}

/// Whether a leaf has the name.
#[tactic(auto, unfolding(crate::specs::Nodes::named), using(crate::proofs::Walks::leaf_has, crate::proofs::Walks::join_has))]
pub(crate) fn has_leaf(node: &Node, name: &Name) -> bool
    ensures { result ≡ is_one_of name.now (leaf_names (named node.now)) }
{
    match node {
        Node::Leaf(leaf) => is_named(leaf, name),
        Node::Join(_, _, left, right) => has_leaf(left, name) || has_leaf(right, name),
    }
}

/// Whether an element has the name.
#[tactic(auto, unfolding(crate::specs::Nodes::named), using(crate::proofs::Walks::leaf_is_element, crate::proofs::Walks::join_has_element))]
pub(crate) fn has_element(node: &Node, name: &Name) -> bool
    ensures { result ≡ is_one_of name.now (element_names (named node.now)) }
{
    match node {
        Node::Leaf(leaf) => leaf.item.is_some() && is_named(leaf, name),
        Node::Join(_, _, left, right) => has_element(left, name) || has_element(right, name),
    }
}

/// Adds the names of the leaves to a list, from left to right.
#[tactic(auto, unfolding(crate::specs::Nodes::named, crate::specs::NamedTree::leaf_names), using(crate::proofs::Walks::leaf_name))]
pub(crate) fn push_leaves(alloc: Global, node: &Node, names: &mut NameList) -> Result<(), NoMemory>
    ensures { OnOk result (names.new ≡ names.old ++ leaf_names (named node.now)) }
{
    match node {
        Node::Leaf(leaf) => names.push(alloc, leaf.name),
        Node::Join(_, _, left, right) => {
            push_leaves(alloc, left, names)?;
            push_leaves(alloc, right, names)
        }
    }
}

/// Adds the name of a leaf to a list, where it has an element.
#[tactic(auto, using(crate::proofs::ElementLemmas::element_name, crate::proofs::ElementLemmas::no_element))]
fn push_element(alloc: Global, leaf: &Leaf, names: &mut NameList) -> Result<(), NoMemory>
    ensures { OnOk result (names.new ≡ names.old ++ element_names (named_leaf leaf.now)) }
{
    match &leaf.item {
        Some(_) => names.push(alloc, leaf.name),
        None => Ok(()),
    }
}

/// Adds the names of the elements to a list, from left to right.
#[tactic(auto, unfolding(crate::specs::Nodes::named, crate::specs::NamedTree::element_names))]
pub(crate) fn push_elements(
    alloc: Global,
    node: &Node,
    names: &mut NameList,
) -> Result<(), NoMemory>
    ensures { OnOk result (names.new ≡ names.old ++ element_names (named node.now)) }
{
    match node {
        Node::Leaf(leaf) => push_element(alloc, leaf, names),
        Node::Join(_, _, left, right) => {
            push_elements(alloc, left, names)?;
            push_elements(alloc, right, names)
        }
    }
}

/// The weight of the element of a name, if there is one.
#[tactic(auto, unfolding(crate::specs::Nodes::named, crate::specs::Weights::weight_named))]
pub(crate) fn weight_of(node: &Node, name: &Name) -> Option<i64>
    ensures { result ≡ weight_named name.now (named node.now) }
{
    match node {
        Node::Leaf(leaf) => weight_of_leaf(leaf, name),
        Node::Join(_, _, left, right) => match weight_of(left, name) {
            None => weight_of(right, name),
            found => found,
        },
    }
}

/// The weight of the leaf, where it is the element of this name.
fn weight_of_leaf(leaf: &Leaf, name: &Name) -> Option<i64>
    ensures { result ≡ weight_named name.now (named_leaf leaf.now) }
{
    match &leaf.item {
        Some(item) if is_named(leaf, name) => Some(item.weight),
        _ => None,
    }
}

/// Gives the first element of a name another weight, and gives the weight before, if there is such an element.
pub(crate) fn exchange_weight(node: &mut Node, name: &Name, weight: i64) -> Option<i64>
    ensures { IsReweighted name.now weight node.old node.new result }
{
    match node {
        Node::Leaf(leaf) => exchange_weight_of_leaf(leaf, name, weight),
        Node::Join(_, _, left, right) => match exchange_weight(left, name, weight) {
            Some(before) => Some(before),
            None => exchange_weight(right, name, weight),
        },
    }
}

/// Gives the leaf another weight, where it is the element of this name, and gives the weight before.
fn exchange_weight_of_leaf(leaf: &mut Leaf, name: &Name, weight: i64) -> Option<i64>
    ensures before { result ≡ weight_named name.now (named_leaf leaf.old) }
    ensures found { is_some result ≡ (is_some leaf.old.item && bytes_eq name.now leaf.old.name) }
    ensures leaf { leaf.new ≡ (if is_some result then reweighted weight leaf.old else leaf.old) }
{
    if !is_named(leaf, name) {
        return None;
    }
    match &mut leaf.item {
        Some(item) => {
            let before = item.weight;
            item.weight = weight;
            Some(before)
        }
        None => None,
    }
}
