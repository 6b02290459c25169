//! The top call: all that the program does.
ghost use Rattle.std.specs.Prelude.{◌≡◌, false, None};
ghost use Rattle.mm_base.specs.Causes.{Rose};
ghost use Rattle.mm_base.specs.declared.status.Status.TheVariants as ends;
ghost use Rattle.mm_cli.specs.Minors.{TellMinors};
ghost use Rattle.mm_cli.specs.Owed.{Owed, reads};
ghost use Rattle.mm_cli.specs.Spending.{Spends};
ghost use Rattle.mm_cli.specs.Words.{asked};

use crate::building::{build, dual};
use crate::minors::minor;
use crate::reading::run;
use crate::sampling::sample;
use crate::words::{Command, command_of};
use crate::writing::write;
use mm_base::{Sink, Source, Status, Steps};
use std::alloc::Global;
use std::sync::ledger::Ledger;

/// All that the program does: what the words ask for, with a source of bytes and a sink.
///
/// - `run` answers the job in the source: where the status is `Done`, `Refused` or `EditRefused`, the sink grew by exactly the output
///   of the job, one line for its header and one for each edit. `ReadFault` and `WriteFault` come only where the source or the sink
///   counted a fault in this call, and then a front of the output was written: after `ReadFault` exactly what is settled of the bytes
///   that were taken.
/// - `minor` answers the job in the source likewise; its query is the one word `minor`, and each answer says whether the matroid of the
///   present tree has that of the given matrix as a minor.
/// - `sample` answers a job that it makes, and writes how many lines that gave, the first and the last. It reads nothing.
/// - `build` answers the decomposition in the source with the header of the tree that is built for it, or with the refusal of its text.
/// - `dual` likewise answers a header, which has no query, with the header of a tree of the dual matroid.
/// - A command that is not built yet is refused, and words that ask for nothing are `Usage`; nothing is read then.
///
/// `NoMemory` may come at any time, with a front of what is owed.
#[tactic(auto, using(crate::proofs::MinorLemmas::tell_minors))]
pub fn top<S: Source, K: Sink, L: Ledger>(
    alloc: Global,
    words: &Vec<String>,
    source: &mut S,
    sink: &mut K,
    steps: &mut Steps<L>,
) -> Status
    // What the words ask for is answered whole, or cut short by a fault or for want of memory.
    ensures owed { Owed (asked words.now.items) (S.left source.old) (S.left source.new) (K.held sink.old) (K.held sink.new) result }
    ensures minors { TellMinors (asked words.now.items) (S.left source.old) }
    ensures usage { result ≡ ends.Usage → asked words.now.items ≡ None }
    ensures unread { reads (asked words.now.items) ≡ false → source.new ≡ source.old }

    // A fault comes only where it was counted.
    ensures read_fault { result ≡ ends.ReadFault → Rose (S.faults source.old) (S.faults source.new) }
    ensures write_fault { result ≡ ends.WriteFault → Rose (K.faults sink.old) (K.faults sink.new) }

    // The steps of a job are within the bound on its work, and the other commands take none.
    ensures steps { Spends (asked words.now.items) (S.left source.old) steps.old steps.new }
{
    match command_of(words) {
        Some(Command::Run(limit)) => run(alloc, limit, source, sink, steps),
        Some(Command::Sample(numbers)) => sample(alloc, numbers, sink, steps),
        Some(Command::Build) => build(alloc, source, sink),
        Some(Command::Dual) => dual(alloc, source, sink),
        Some(Command::Minor(matrix)) => minor(alloc, &matrix, source, sink, steps),
        Some(Command::NotBuilt) => write(b"refused not-built\n", Status::Refused, sink),
        None => write(b"refused usage\n", Status::Usage, sink),
    }
}
