//! A line that a job writes.
ghost use Rattle.std.specs.Prelude.{◌≡◌, IfOk};
ghost use Rattle.mm_job.specs.declared.output_line.OutputLine.TheVariants.{Says};

use mm_base::{NoMemory, Text};
use mm_job_text::Refusal;
use std::alloc::Global;

/// An answer or a verdict, or a refusal.
#[derive(Drop)]
pub enum OutputLine {
    /// The words of an answer or a verdict.
    Says(Text),
    /// A refusal.
    Refuses(Refusal),
}

/// Words alone.
pub fn says(alloc: Global, words: &[u8]) -> Result<OutputLine, NoMemory>
    ensures { IfOk result (λ output_line. output_line ≡ Says words.now) }
{
    let mut text = Text::new(alloc);
    text.append(alloc, words)?;
    Ok(OutputLine::Says(text))
}
