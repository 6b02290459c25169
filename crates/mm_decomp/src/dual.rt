//! The whole way from the text of a header to the header of a tree for the dual.

ghost use Rattle.std.specs.Prelude.{◌≡◌, Some, IfOk};
ghost use Rattle.std.specs.Option.{option_map};
ghost use Rattle.mm_decomp.specs.BuildOutput.{IsOutput};
ghost use Rattle.mm_decomp.specs.DualOutput.{dual_of_tree, dual_output, empty_text};
ghost use Rattle.mm_decomp.specs.GivenTrees.{IsGivenTree, tree_given};
ghost use Rattle.mm_decomp.specs.TreeShapes.{element_shape, steps_of};

use crate::write::append_field;
use crate::{DecompFault, Shape, TreeText, build_tree, read_tree_text, shape_of, write_header};
use mm_base::{NoMemory, Text, TextFault};
use mm_field::Field;
use mm_matrix::orthogonal;
use std::alloc::Global;

/// The header of a tree without elements.
fn write_empty(alloc: Global, f: Field) -> Result<Text, NoMemory>
    ensures { IfOk result (λ text. text ≡ empty_text f) }
{
    let mut text = Text::new(alloc);
    append_field(alloc, &mut text, f)?;
    text.append(alloc, b"tree\nvoid v 0\nend\n")?;
    Ok(text)
}

/// The header of the tree that is built for the dual and the shape of the given tree.
fn write_shaped(alloc: Global, text: &TreeText, shape: &Shape) -> Result<Text, NoMemory>
    requires given { IsGivenTree text.now }
    requires shape { Some shape.now ≡ option_map steps_of (element_shape text.now.tree.tree) }
    ensures { IfOk result (λ header. header ≡ dual_of_tree (tree_given text.now)) }
{
    let _ = text.tree.node();
    let _ = text.given.rows.rows();
    let names = &text.given.names;
    let rows = orthogonal(alloc, &text.given.rows)?;
    let _ = rows.rows();
    match build_tree(alloc, names, &rows, shape) {
        Ok(tree) => write_header(alloc, names, &rows, &tree),
        Err(DecompFault::Width(_)) => unreachable!(),
        Err(DecompFault::NoMemory) => Err(NoMemory),
    }
}

/// The header of a tree for the dual of what a text gives.
fn write_dual(alloc: Global, text: &TreeText) -> Result<Text, NoMemory>
    requires { IsGivenTree text.now }
    ensures { IfOk result (λ header. header ≡ dual_of_tree (tree_given text.now)) }
{
    match shape_of(alloc, &text.tree)? {
        Some(shape) => write_shaped(alloc, text, &shape),
        None => write_empty(alloc, text.tree.field()),
    }
}

/// The header of a tree for the dual, from the text of a header without its query. Where a text is refused, the words are those of its
/// first refusal.
pub fn dual_text(alloc: Global, bytes: &[u8]) -> Result<Text, TextFault>
    ensures { IsOutput result (dual_output bytes.now) }
{
    match read_tree_text(alloc, bytes) {
        Ok(text) => Ok(write_dual(alloc, &text)?),
        Err(fault) => Err(fault),
    }
}
