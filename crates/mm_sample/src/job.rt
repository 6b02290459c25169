//! The text of a sample.

ghost use Rattle.std.specs.Prelude.{◌≡◌, ◌≤◌, IfOk};
ghost use Rattle.mm_sample.specs.SampleText.{sample_text};

use crate::chain::sample_tree;
use crate::draws::Draws;
use crate::edits::append_edits;
use crate::header::append_header;
use mm_base::{NoMemory, Text};
use mm_field::Field;
use mm_present::matrix_of;
use mm_tree::write_tree;
use std::alloc::Global;

/// The text of the sample of n elements over f that a seed gives: its tree, the question for a basis of least weight, n edits.
pub fn sample_text(alloc: Global, f: Field, n: u32, seed: u32) -> Result<Text, NoMemory>
    requires elements { (2 ≤ n) × (n ≤ 200) }
    requires seed { (1 ≤ seed) × (seed ≤ 2147483646) }
    ensures { IfOk result (λ text. text ≡ sample_text f n seed) }
{
    let seed = Draws { x: seed };
    let tree = sample_tree(alloc, f, n, seed)?;
    let present = matrix_of(alloc, &tree)?;
    let mut text = Text::new(alloc);
    append_header(alloc, &mut text, f, n, &present.rows)?;
    text.append(alloc, write_tree(alloc, &tree)?.bytes())?;
    text.append(
        alloc,
        b"least X ind(X) and all y (y in X or not ind(X|y))\n",
    )?;
    append_edits(alloc, &mut text, f, n, seed.after(4 * n - 1))?;
    Ok(text)
}
