//! A tree as the lines that give it.

ghost use Rattle.std.specs.Prelude.{◌≡◌, ◌++◌, ◌∷◌, [], map, IfOk, OnOk};
ghost use Rattle.mm_space.specs.VectorText.{vector_text};
ghost use Rattle.mm_tree.specs.Nodes.{named, named_leaf};
ghost use Rattle.mm_tree.specs.TreeText.{elem_text, join_text, node_lines, text_of_lines, tree_text, void_text, AreShown, HasShownDigits};

use crate::{Item, Leaf, Node, Tree};
use mm_base::{Name, NoMemory, Text};
use mm_space::Vector;
use std::alloc::Global;

/// The lines of a tree: each join after the lines of its left and then of its right subtree, and `end` after them. Words stand
/// with single blanks, numbers in shortest decimal form, and an empty vector is `-`.
pub fn write_tree(alloc: Global, tree: &Tree) -> Result<Text, NoMemory>
    ensures { IfOk result (λ text. text ≡ tree_text tree.now.tree) }
{
    let mut text = Text::new(alloc);
    append_node(alloc, &mut text, tree.node())?;
    text.append(alloc, b"end\n")?;
    Ok(text)
}

/// The lines of a node and of all below it.
#[tactic(auto, unfolding(crate::specs::TreeText::node_lines, crate::specs::Nodes::named))]
fn append_node(alloc: Global, text: &mut Text, node: &Node) -> Result<(), NoMemory>
    requires { HasShownDigits (named node.now) }
    ensures { OnOk result (text.new ≡ text.old ++ text_of_lines (node_lines (named node.now))) }
{
    match node {
        Node::Leaf(leaf) => append_leaf(alloc, text, leaf),
        Node::Join(name, _, left, right) => {
            append_node(alloc, text, left)?;
            append_node(alloc, text, right)?;
            append_join(alloc, text, name)
        }
    }
}

/// `join NAME`
fn append_join(alloc: Global, text: &mut Text, name: &Name) -> Result<(), NoMemory>
    ensures { OnOk result (text.new ≡ text.old ++ text_of_lines (join_text name.now ∷ [])) }
{
    text.append(alloc, b"join ")?;
    text.append(alloc, name.bytes())?;
    text.append(alloc, b"\n")
}

/// The line of a leaf.
fn append_leaf(alloc: Global, text: &mut Text, leaf: &Leaf) -> Result<(), NoMemory>
    requires { HasShownDigits (named_leaf leaf.now) }
    ensures { OnOk result (text.new ≡ text.old ++ text_of_lines (node_lines (named_leaf leaf.now))) }
{
    match &leaf.item {
        Some(item) => append_elem(alloc, text, &leaf.name, item),
        None => append_void(alloc, text, &leaf.name, leaf.t),
    }
}

/// `elem NAME VECTOR WEIGHT`
fn append_elem(alloc: Global, text: &mut Text, name: &Name, item: &Item) -> Result<(), NoMemory>
    requires { AreShown item.now.vec }
    ensures { OnOk result (text.new ≡ text.old ++ text_of_lines (elem_text name.now item.now.vec item.now.weight ∷ [])) }
{
    let weight = format!(in alloc; "{}", item.weight)?;
    text.append(alloc, b"elem ")?;
    text.append(alloc, name.bytes())?;
    text.append(alloc, b" ")?;
    append_vector(alloc, text, item.vec)?;
    text.append(alloc, b" ")?;
    text.append(alloc, weight.as_bytes())?;
    text.append(alloc, b"\n")
}

/// `void NAME T`
fn append_void(alloc: Global, text: &mut Text, name: &Name, t: u8) -> Result<(), NoMemory>
    ensures { OnOk result (text.new ≡ text.old ++ text_of_lines (void_text name.now t ∷ [])) }
{
    let digits = format!(in alloc; "{t}")?;
    text.append(alloc, b"void ")?;
    text.append(alloc, name.bytes())?;
    text.append(alloc, b" ")?;
    text.append(alloc, digits.as_bytes())?;
    text.append(alloc, b"\n")
}

/// Writes the digits of a vector, and `-` for none.
pub fn append_vector(alloc: Global, text: &mut Text, vec: Vector) -> Result<(), NoMemory>
    requires { AreShown vec }
    ensures { OnOk result (text.new ≡ text.old ++ vector_text vec) }
{
    if vec.len() == 0 {
        return text.append(alloc, b"-");
    }
    for k in 0..vec.len() {
        text.append(alloc, &[b'0' + vec.at(k)])?;
    }
    Ok(())
}
