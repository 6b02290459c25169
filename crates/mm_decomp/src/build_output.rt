//! The whole way from the text of a decomposition to the header of its tree.

ghost use Rattle.std.specs.Prelude.{◌≡◌, IfOk};
ghost use Rattle.mm_decomp.specs.Building.{AreLeaves};
ghost use Rattle.mm_decomp.specs.BuildOutput.{IsOutput, build_output, header_of, width_words};
ghost use Rattle.mm_decomp.specs.BuildTexts.{decomposition};

use crate::{BuildText, DecompFault, build_tree, read_build, write_header};
use mm_base::{NoMemory, Text, TextFault};
use std::alloc::Global;

/// The words for a step that is too wide, by the number of its line.
fn width_words(alloc: Global, number: u32) -> Result<Text, NoMemory>
    ensures { IfOk result (λ text. text ≡ width_words number) }
{
    let words = format!(in alloc; "width {number}")?;
    let mut text = Text::new(alloc);
    text.append(alloc, words.as_bytes())?;
    Ok(text)
}

/// The header of the tree that is built for what a text gives.
fn write_built(alloc: Global, text: &BuildText) -> Result<Text, TextFault>
    requires { AreLeaves text.now.names text.now.rows text.now.shape }
    ensures { IsOutput result (header_of (decomposition text.now)) }
{
    let _ = text.shape.steps();
    match build_tree(alloc, &text.names, &text.rows, &text.shape) {
        Ok(tree) => Ok(write_header(alloc, &text.names, &text.rows, &tree)?),
        Err(DecompFault::Width(step)) => {
            Err(TextFault::Refused(width_words(alloc, text.line_of(step))?))
        }
        Err(DecompFault::NoMemory) => Err(TextFault::NoMemory),
    }
}

/// The header of the tree that is built for a decomposition, from the text of the decomposition. Where a text is refused, the words are
/// those of its first refusal; the line of the first step whose node has a boundary above 6 is refused last.
pub fn build_text(alloc: Global, bytes: &[u8]) -> Result<Text, TextFault>
    ensures { IsOutput result (build_output bytes.now) }
{
    match read_build(alloc, bytes) {
        Ok(text) => write_built(alloc, &text),
        Err(fault) => Err(fault),
    }
}
