//! The loop that reads a job and writes its answers.
ghost use Rattle.std.specs.Prelude.{◌≡◌, ◌≤◌, ◌<◌, ◌+◌, [], ℕ, length, true, Some, IfSome, IfNone};
ghost use Rattle.mm_cli.specs.Going.{CameTo, IsFar, IsRead, Start};
ghost use Rattle.mm_lines.specs.Lines.{most_bytes};
ghost use Rattle.mm_base.specs.Causes.{Rose};
ghost use Rattle.mm_base.specs.declared.status.Status.TheVariants as ends;
ghost use Rattle.mm_cli.specs.Runs.{Ran, cut, most_asked};
ghost use Rattle.mm_cli.specs.Spending.{SpendsOnJob, SpendsOnRead};
ghost use Rattle.mm_job.specs.Settings.{spelled};
ghost use Rattle.mm_job.specs.Work.{settled_work};

use mm_base::{Sink, Source, Status, Steps};
use mm_job::{Job, JobFault, Progress};
use mm_lines::MOST_BYTES;
use std::alloc::Global;
use std::sync::ledger::Ledger;

/// The bytes that are used of a text, and one more: where it comes, the text is too long.
pub(crate) const MOST_TAKEN: usize = MOST_BYTES + 1;

/// How many bytes one read asks for at most.
pub(crate) const PIECE: usize = 8192;

/// How a run ends by a fault of its job.
fn cut(fault: JobFault) -> Status
    ensures { result ≡ cut fault }
{
    match fault {
        JobFault::Write => Status::WriteFault,
        JobFault::NoMemory => Status::NoMemory,
    }
}

/// What one read of the source brought.
enum ReadStep {
    /// The end of the source.
    End,
    /// So many bytes, and the job goes on.
    More(usize),
    /// The end of the run.
    Stop(Status),
}

/// Reads a piece into the buffer, and writes what it settles.
fn read_piece<S: Source, K: Sink, L: Ledger>(
    alloc: Global,
    job: &mut Job,
    buffer: &mut [u8],
    source: &mut S,
    sink: &mut K,
    steps: &mut Steps<L>,
) -> ReadStep
    ghost start: { Start }
    requires live { job.old.live ≡ true }
    requires some { 0 < length buffer.old }
    requires asked { length buffer.old ≤ most_asked }
    requires room { length job.old.text + length buffer.old ≤ most_bytes + 1 }
    requires far { IsFar start (S.left source.old) (K.held sink.old) job.old }
    ensures came { CameTo start (S.left source.new) (K.held sink.new) job.old job.new result }
    ensures within { (n : ℕ) → result ≡ ReadStep.More n → n ≤ length buffer.old }
    ensures read_later { S.faults source.old ≤ S.faults source.new }
    ensures read_fault { result ≡ ReadStep.Stop ends.ReadFault → Rose (S.faults source.old) (S.faults source.new) }
    ensures write_later { K.faults sink.old ≤ K.faults sink.new }
    ensures write_fault { result ≡ ReadStep.Stop ends.WriteFault → Rose (K.faults sink.old) (K.faults sink.new) }
    ensures steps { SpendsOnRead start.left job.old job.new steps.old steps.new result }
{
    let Ok(count) = source.read(buffer) else {
        return ReadStep::Stop(Status::ReadFault);
    };
    if count == 0 {
        return ReadStep::End;
    }
    match job.feed(alloc, &buffer[..count], sink, steps) {
        Ok(Progress::More) => ReadStep::More(count),
        Ok(Progress::Ended(status)) => ReadStep::Stop(status),
        Err(fault) => ReadStep::Stop(cut(fault)),
    }
}

/// Reads piece by piece, and writes what each piece settles before it reads again, until the source has no more, or one byte more
/// than is used was taken. The status where the run ends before.
fn read_pieces<S: Source, K: Sink, L: Ledger>(
    alloc: Global,
    job: &mut Job,
    source: &mut S,
    sink: &mut K,
    steps: &mut Steps<L>,
) -> Option<Status>
    ghost start: { Start }
    requires live { job.old.live ≡ true }
    requires new { job.old.text ≡ [] }
    requires left { start.left ≡ S.left source.old }
    requires held { start.held ≡ K.held sink.old }
    ensures stopped { IfSome result (λ s. Ran job.old.settings start.left (S.left source.new) start.held (K.held sink.new) s) }
    ensures all { IfNone result ((job.new.live ≡ true)
        × IsRead job.old.settings start.left (S.left source.new) start.held (K.held sink.new) job.new) }
    ensures read_fault { result ≡ Some ends.ReadFault → Rose (S.faults source.old) (S.faults source.new) }
    ensures write_later { K.faults sink.old ≤ K.faults sink.new }
    ensures write_fault { result ≡ Some ends.WriteFault → Rose (K.faults sink.old) (K.faults sink.new) }
    ensures steps { IfSome result (λ s. SpendsOnJob job.old.settings start.left steps.old steps.new) }
    ensures steps_so_far { IfNone result (steps.new ≤ steps.old + settled_work job.new.text job.old.settings) }
{
    let mut buffer = [0u8; PIECE];
    let mut taken = 0;
    'pieces: while taken < MOST_TAKEN {
        let want = PIECE.min(MOST_TAKEN - taken);
        match read_piece(alloc, job, &mut buffer[..want], source, sink, steps) {
            ReadStep::End => return None,
            ReadStep::More(count) => taken += count,
            ReadStep::Stop(status) => return Some(status),
        }
    }
    None
}

/// Answers the job that has read nothing yet: reads its text piece by piece, and then writes what the end of the text settles.
pub(crate) fn answer<S: Source, K: Sink, L: Ledger>(
    alloc: Global,
    job: &mut Job,
    source: &mut S,
    sink: &mut K,
    steps: &mut Steps<L>,
) -> Status
    requires live { job.old.live ≡ true }
    requires new { job.old.text ≡ [] }
    ensures run { Ran job.old.settings (S.left source.old) (S.left source.new) (K.held sink.old) (K.held sink.new) result }
    ensures read_fault { result ≡ ends.ReadFault → Rose (S.faults source.old) (S.faults source.new) }
    ensures write_fault { result ≡ ends.WriteFault → Rose (K.faults sink.old) (K.faults sink.new) }
    ensures steps { SpendsOnJob job.old.settings (S.left source.old) steps.old steps.new }
{
    if let Some(status) = read_pieces(alloc, job, source, sink, steps) {
        return status;
    }
    match job.finish(alloc, sink, steps) {
        Ok(status) => status,
        Err(fault) => cut(fault),
    }
}

/// Answers the job in the source, with this limit on sizes.
pub fn run<S: Source, K: Sink, L: Ledger>(
    alloc: Global,
    limit: u64,
    source: &mut S,
    sink: &mut K,
    steps: &mut Steps<L>,
) -> Status
    requires least { 1 ≤ limit }
    requires most { limit ≤ 4194304 }
    ensures run { Ran (spelled limit) (S.left source.old) (S.left source.new) (K.held sink.old) (K.held sink.new) result }
    ensures read_fault { result ≡ ends.ReadFault → Rose (S.faults source.old) (S.faults source.new) }
    ensures write_fault { result ≡ ends.WriteFault → Rose (K.faults sink.old) (K.faults sink.new) }
    ensures steps { SpendsOnJob (spelled limit) (S.left source.old) steps.old steps.new }
{
    let mut job = Job::new(alloc, limit);
    answer(alloc, &mut job, source, sink, steps)
}
