//! Writing what a command answers.
ghost use Rattle.std.specs.Prelude.{◌≡◌, List, ℕ, Result, IfOk};
ghost use Rattle.mm_base.specs.Causes.{Rose};
ghost use Rattle.mm_base.specs.declared.status.Status.TheVariants as ends;
ghost use Rattle.mm_decomp.specs.BuildOutput.{IsOutput};
ghost use Rattle.mm_cli.specs.Answers.{Writes, made, refusal_line, refused};
ghost use Rattle.mm_cli.specs.Runs.{IsCut};

use mm_base::{NoMemory, Sink, SinkFault, Status, Text, TextFault, write_all};
use std::alloc::Global;

/// Writes an output, with which the run ends.
pub(crate) fn write<K: Sink>(output: &[u8], status: Status, sink: &mut K) -> Status
    requires { IsCut status → ⊥ }
    ensures answer { Writes (record { output = output.now; status = status }) (K.held sink.old) (K.held sink.new) result }
    ensures read_fault { result ≡ ends.ReadFault → ⊥ }
    ensures write_fault { result ≡ ends.WriteFault → Rose (K.faults sink.old) (K.faults sink.new) }
{
    match write_all(sink, output) {
        Ok(()) => status,
        Err(SinkFault::Failed) => Status::WriteFault,
        Err(SinkFault::NoMemory) => Status::NoMemory,
    }
}

/// The line that refuses by these words.
fn refusal_line(alloc: Global, words: &Text) -> Result<Text, NoMemory>
    ensures { IfOk result (λ line. line ≡ refusal_line words.now) }
{
    let mut line = Text::new(alloc);
    line.append(alloc, b"refused ")?;
    line.append(alloc, words.bytes())?;
    line.append(alloc, b"\n")?;
    Ok(line)
}

/// Writes the words of a refusal.
fn refuse<K: Sink>(alloc: Global, words: &Text, sink: &mut K) -> Status
    ensures answer { Writes (refused words.now) (K.held sink.old) (K.held sink.new) result }
    ensures read_fault { result ≡ ends.ReadFault → ⊥ }
    ensures write_fault { result ≡ ends.WriteFault → Rose (K.faults sink.old) (K.faults sink.new) }
{
    match refusal_line(alloc, words) {
        Ok(line) => write(line.bytes(), Status::Refused, sink),
        Err(NoMemory) => Status::NoMemory,
    }
}

/// Writes the text that was made, or the words of its refusal.
pub(crate) fn write_made<K: Sink>(
    alloc: Global,
    text: &Result<Text, TextFault>,
    sink: &mut K,
) -> Status
    ensures answer { (output : Result (List ℕ) (List ℕ)) → IsOutput text.now output
        → Writes (made output) (K.held sink.old) (K.held sink.new) result }
    ensures read_fault { result ≡ ends.ReadFault → ⊥ }
    ensures write_fault { result ≡ ends.WriteFault → Rose (K.faults sink.old) (K.faults sink.new) }
{
    match text {
        Ok(text) => write(text.bytes(), Status::Done, sink),
        Err(TextFault::Refused(words)) => refuse(alloc, words, sink),
        Err(TextFault::NoMemory) => Status::NoMemory,
    }
}
