//! Commands that read their source as a whole, and write the text that they make of it.
ghost use Rattle.std.specs.Prelude.{◌≡◌};
ghost use Rattle.mm_base.specs.Causes.{Rose};
ghost use Rattle.mm_base.specs.declared.status.Status.TheVariants as ends;
ghost use Rattle.mm_cli.specs.Answers.{build, dual};
ghost use Rattle.mm_cli.specs.Whole.{AnswersText};

use crate::whole::read_whole;
use crate::writing::write_made;
use mm_base::{Sink, Source, Status, Text};
use mm_decomp::{build_text, dual_text};
use std::alloc::Global;

/// Writes the header of the tree that is built for the decomposition in the source.
pub fn build<S: Source, K: Sink>(alloc: Global, source: &mut S, sink: &mut K) -> Status
    ensures answers { AnswersText build (S.left source.old) (S.left source.new) (K.held sink.old) (K.held sink.new) result }
    ensures read_fault { result ≡ ends.ReadFault → Rose (S.faults source.old) (S.faults source.new) }
    ensures write_fault { result ≡ ends.WriteFault → Rose (K.faults sink.old) (K.faults sink.new) }
{
    let mut text = Text::new(alloc);
    match read_whole(alloc, source, &mut text) {
        Ok(()) => write_made(alloc, &build_text(alloc, text.bytes()), sink),
        Err(status) => status,
    }
}

/// Writes the header of a tree of the dual matroid of the tree in the source.
pub fn dual<S: Source, K: Sink>(alloc: Global, source: &mut S, sink: &mut K) -> Status
    ensures answers { AnswersText dual (S.left source.old) (S.left source.new) (K.held sink.old) (K.held sink.new) result }
    ensures read_fault { result ≡ ends.ReadFault → Rose (S.faults source.old) (S.faults source.new) }
    ensures write_fault { result ≡ ends.WriteFault → Rose (K.faults sink.old) (K.faults sink.new) }
{
    let mut text = Text::new(alloc);
    match read_whole(alloc, source, &mut text) {
        Ok(()) => write_made(alloc, &dual_text(alloc, text.bytes()), sink),
        Err(status) => status,
    }
}
