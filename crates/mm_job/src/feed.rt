//! A text that comes in pieces: its lines are taken one by one, and what each says is written.
ghost use Rattle.std.specs.Prelude.{◌≡◌, ◌+◌, ◌++◌, ◌∷◌, ◌<◌, ◌≤◌, [], List, ℕ, length, true, false, IfOk, OnOk, OnErr};
ghost use Rattle.mm_lines.specs.Lines.{most_bytes, settled};
ghost use Rattle.mm_lines.specs.declared.line.Line.{Line as LineOf};
ghost use Rattle.std.specs.Io.KnownBytes.{Appends};
ghost use Rattle.mm_base.specs.Causes.{GrowsByFront};
ghost use Rattle.mm_job.specs.Calls.{Writes};
ghost use Rattle.mm_job.specs.State.Blocks.{written};
ghost use Rattle.mm_job.specs.State.JobStates.{come_to, status_at};
ghost use Rattle.mm_job.specs.State.Feeding.{Fed, FedLine, GrewByFrontOfPiece, GrewByPiece, IsWithin, last_lines, last_text, left};
ghost use Rattle.mm_job.specs.Jobs.{HasJobCause};
ghost use Rattle.mm_job.specs.Output.{Ending, More, Over, end_of, output, printed, printed_all, status_of, written_lines};
ghost use Rattle.mm_job.specs.State.Standing.{IsRead, Stands, work_at, written_at};
ghost use Rattle.mm_job.specs.State.Spending.{Spends, SpendsAtMost};
ghost use Rattle.mm_job.specs.State.Stages.{IsKeptAt, lines_from_stage, work_from_stage};
ghost use Rattle.mm_job.specs.Calls.{SpendsOnText};
ghost use Rattle.mm_job.specs.Work.{bound_of};
ghost use Rattle.mm_job.specs.Settings.{Settings};

use crate::output_line::OutputLine;
use crate::progress::JobFault;
use crate::settings::Settings;
use crate::state::{JobState, after_step, last_output_line, status_at};
use mm_base::{NoMemory, Sink, SinkFault, Status, Steps, Text, write_all};
use mm_job_text::words;
use mm_lines::{Framer, Line};
use std::alloc::Global;
use std::sync::ledger::Ledger;

/// A line as it is written.
fn print(alloc: Global, output_line: &OutputLine) -> Result<Text, NoMemory>
    ensures { IfOk result (λ text. text ≡ printed output_line.now) }
{
    let mut text = Text::new(alloc);
    match output_line {
        OutputLine::Says(answer) => text.append(alloc, answer.bytes())?,
        OutputLine::Refuses(refusal) => {
            text.append(alloc, b"refused ")?;
            text.append(alloc, words(alloc, refusal)?.bytes())?;
        }
    }
    text.append(alloc, b"\n")?;
    Ok(text)
}

/// Writes a text.
fn write_text<K: Sink>(text: &Text, out: &mut K) -> Result<(), JobFault>
    ensures ok { OnOk result (Appends (K.held out.old) (K.held out.new) text.now) }
    ensures err { OnErr result (GrowsByFront (K.held out.old) (K.held out.new) text.now) }
    ensures cause { HasJobCause (K.faults out.old) (K.faults out.new) result }
{
    match write_all(out, text.bytes()) {
        Ok(()) => Ok(()),
        Err(SinkFault::Failed) => Err(JobFault::Write),
        Err(SinkFault::NoMemory) => Err(JobFault::NoMemory),
    }
}

/// Writes a line, if there is one.
fn write_output_line<K: Sink>(
    alloc: Global,
    output_line: Option<OutputLine>,
    out: &mut K,
) -> Result<(), JobFault>
    ensures ok { OnOk result (Appends (K.held out.old) (K.held out.new) (printed_all (written output_line))) }
    ensures err { OnErr result (GrowsByFront (K.held out.old) (K.held out.new) (printed_all (written output_line))) }
    ensures cause { HasJobCause (K.faults out.old) (K.faults out.new) result }
{
    match output_line {
        None => Ok(()),
        Some(output_line) => {
            let text = print(alloc, &output_line)?;
            write_text(&text, out)
        }
    }
}

/// Takes a line, and writes what it says.
fn take_written<K: Sink, L: Ledger>(
    alloc: Global,
    settings: &Settings,
    state: &mut JobState,
    line: &Line,
    out: &mut K,
    steps: &mut Steps<L>,
) -> Result<(), JobFault>
    requires kept { IsKeptAt state.old.stage }
    ensures kept { IfOk result (λ u. IsKeptAt state.new.stage) }
    ensures fed { OnOk result (FedLine settings.now state.old state.new line.now (K.held out.old) (K.held out.new)) }
    ensures front { OnErr result ((e : Ending) (rs : List LineOf) →
        GrowsByFront (K.held out.old) (K.held out.new) (printed_all (lines_from_stage settings.now state.old.stage e (line.now ∷ rs)))) }
    ensures cause { HasJobCause (K.faults out.old) (K.faults out.new) result }
    ensures spends { OnOk result (Spends (work_from_stage settings.now state.old.stage) (work_from_stage settings.now state.new.stage)
        (line.now ∷ []) [] steps.old steps.new) }
    ensures most { OnErr result (SpendsAtMost (work_from_stage settings.now state.old.stage) (line.now ∷ []) steps.old steps.new) }
{
    let output_line = state.take(alloc, settings, line, steps)?;
    write_output_line(alloc, output_line, out)?;
    Ok(())
}

/// Takes the next line of the stream, and writes what it says. Whether there was one.
fn take_next<K: Sink, L: Ledger>(
    alloc: Global,
    settings: &Settings,
    state: &mut JobState,
    framer: &mut Framer,
    out: &mut K,
    steps: &mut Steps<L>,
) -> Result<bool, JobFault>
    requires kept { IsKeptAt state.old.stage }
    requires within { IsWithin framer.old }
    ensures kept { IfOk result (λ more. IsKeptAt state.new.stage) }
    ensures fed { OnOk result (Fed settings.now state.old state.new (left framer.old) (left framer.new) (K.held out.old) (K.held out.new)) }
    ensures more { IfOk result (λ more. more ≡ true → length (left framer.new) < length (left framer.old)) }
    ensures all { IfOk result (λ more. more ≡ false → left framer.new ≡ []) }
    ensures front { OnErr result ((e : Ending) →
        GrowsByFront (K.held out.old) (K.held out.new) (printed_all (lines_from_stage settings.now state.old.stage e (left framer.old)))) }
    ensures cause { HasJobCause (K.faults out.old) (K.faults out.new) result }
    ensures within { IsWithin framer.new }
    ensures bytes { framer.new.bytes ≡ framer.old.bytes }
    ensures ended { framer.new.ended ≡ framer.old.ended }
    ensures spends { OnOk result (Spends (work_from_stage settings.now state.old.stage) (work_from_stage settings.now state.new.stage)
        (left framer.old) (left framer.new) steps.old steps.new) }
    ensures most { OnErr result (SpendsAtMost (work_from_stage settings.now state.old.stage) (left framer.old) steps.old steps.new) }
{
    let Some(line) = framer.next_line(alloc)? else {
        return Ok(false);
    };
    take_written(alloc, settings, state, &line, out, steps)?;
    Ok(true)
}

/// Takes all lines of the stream that are closed or known to be too long, and writes what each says.
fn feed_lines<K: Sink, L: Ledger>(
    alloc: Global,
    settings: &Settings,
    state: &mut JobState,
    framer: &mut Framer,
    out: &mut K,
    steps: &mut Steps<L>,
) -> Result<(), JobFault>
    requires kept { IsKeptAt state.old.stage }
    requires within { IsWithin framer.old }
    ensures kept { IfOk result (λ u. IsKeptAt state.new.stage) }
    ensures fed { OnOk result (Fed settings.now state.old state.new (left framer.old) (left framer.new) (K.held out.old) (K.held out.new)) }
    ensures all { OnOk result (left framer.new ≡ []) }
    ensures front { OnErr result ((e : Ending) →
        GrowsByFront (K.held out.old) (K.held out.new) (printed_all (lines_from_stage settings.now state.old.stage e (left framer.old)))) }
    ensures cause { HasJobCause (K.faults out.old) (K.faults out.new) result }
    ensures within { IsWithin framer.new }
    ensures bytes { framer.new.bytes ≡ framer.old.bytes }
    ensures ended { framer.new.ended ≡ framer.old.ended }
    ensures spends { OnOk result (Spends (work_from_stage settings.now state.old.stage) (work_from_stage settings.now state.new.stage)
        (left framer.old) (left framer.new) steps.old steps.new) }
    ensures most { OnErr result (SpendsAtMost (work_from_stage settings.now state.old.stage) (left framer.old) steps.old steps.new) }
{
    'lines: loop {
        let more = take_next(alloc, settings, state, framer, out, steps)?;
        if !more {
            return Ok(());
        }
    }
}

/// Writes what the end of a text says, or that it has more bytes than are used, and gives the status.
fn end_state<K: Sink>(
    alloc: Global,
    state: &JobState,
    over: bool,
    out: &mut K,
) -> Result<Status, JobFault>
    ensures status { IfOk result (λ s. (settings : Settings) → s ≡ status_at (come_to state.now.status (last_lines settings state.now.stage over))) }
    ensures wrote { OnOk result ((settings : Settings) → Appends (K.held out.old) (K.held out.new) (last_text settings state.now.stage over)) }
    ensures front { OnErr result ((settings : Settings) →
        GrowsByFront (K.held out.old) (K.held out.new) (last_text settings state.now.stage over)) }
    ensures cause { HasJobCause (K.faults out.old) (K.faults out.new) result }
{
    let output_line = last_output_line(&state.stage, over);
    let status = after_step(state.status, &output_line);
    write_output_line(alloc, output_line, out)?;
    Ok(status_at(status))
}

/// Takes a piece of a text, and writes what it settles.
pub fn take_piece<K: Sink, L: Ledger>(
    alloc: Global,
    settings: &Settings,
    state: &mut JobState,
    framer: &mut Framer,
    piece: &[u8],
    out: &mut K,
    steps: &mut Steps<L>,
) -> Result<(), JobFault>
    requires stands { Stands settings.now framer.old.bytes state.old }
    requires stream { IsRead framer.old }
    requires size { length framer.old.bytes + length piece.now ≤ most_bytes }
    ensures stands { OnOk result (Stands settings.now (framer.old.bytes ++ piece.now) state.new) }
    ensures stream { OnOk result (IsRead framer.new) }
    ensures bytes { OnOk result (framer.new.bytes ≡ framer.old.bytes ++ piece.now) }
    ensures wrote { OnOk result (GrewByPiece (K.held out.old) (K.held out.new) settings.now framer.old.bytes piece.now) }
    ensures front { OnErr result (GrewByFrontOfPiece (K.held out.old) (K.held out.new) settings.now framer.old.bytes piece.now) }
    ensures cause { HasJobCause (K.faults out.old) (K.faults out.new) result }
    ensures steps { SpendsOnText steps.old steps.new (work_at settings.now framer.old.bytes) (work_at settings.now (framer.old.bytes ++ piece.now)) }
{
    framer.feed(alloc, piece)?;
    feed_lines(alloc, settings, state, framer, out, steps)
}

/// Takes the last piece that is used of a text with more bytes, and writes what it settles and that the text is too long.
pub fn take_last<K: Sink, L: Ledger>(
    alloc: Global,
    settings: &Settings,
    state: &mut JobState,
    framer: &mut Framer,
    piece: &[u8],
    out: &mut K,
    steps: &mut Steps<L>,
) -> Result<Status, JobFault>
    requires stands { Stands settings.now framer.old.bytes state.old }
    requires stream { IsRead framer.old }
    requires size { length framer.old.bytes + length piece.now ≤ most_bytes }
    ensures status { IfOk result (λ s. s ≡ status_of (written_lines settings.now Over (settled (framer.old.bytes ++ piece.now)))) }
    ensures writes { Writes K.held K.faults out.old out.new
        (written_at More settings.now framer.old.bytes) (written_at Over settings.now (framer.old.bytes ++ piece.now)) result }
    ensures steps { SpendsOnText steps.old steps.new (work_at settings.now framer.old.bytes) (work_at settings.now (framer.old.bytes ++ piece.now)) }
{
    take_piece(alloc, settings, state, framer, piece, out, steps)?;
    end_state(alloc, state, true, out)
}

/// Takes the end of a text, and writes the rest of the output.
pub fn take_text_end<K: Sink, L: Ledger>(
    alloc: Global,
    settings: &Settings,
    state: &mut JobState,
    framer: &mut Framer,
    out: &mut K,
    steps: &mut Steps<L>,
) -> Result<Status, JobFault>
    requires stands { Stands settings.now framer.old.bytes state.old }
    requires stream { IsRead framer.old }
    requires size { length framer.old.bytes ≤ most_bytes }
    ensures status { IfOk result (λ s. s ≡ end_of framer.old.bytes settings.now) }
    ensures writes { Writes K.held K.faults out.old out.new
        (written_at More settings.now framer.old.bytes) (output framer.old.bytes settings.now) result }
    ensures steps { SpendsOnText steps.old steps.new (work_at settings.now framer.old.bytes) (bound_of framer.old.bytes settings.now) }
{
    framer.finish();
    feed_lines(alloc, settings, state, framer, out, steps)?;
    end_state(alloc, state, false, out)
}
