//! How far a job has come, and what the lines that it wrote come to.
ghost use Rattle.std.specs.Prelude.{◌≡◌, ◌≤◌, ◌∷◌, ℕ, [], None, IfOk, OnErr};
ghost use Rattle.mm_job.specs.State.Blocks.{lines_from_block, written};
ghost use Rattle.mm_job.specs.State.JobStates.{after_output_line, come_to, end_by, is_refused, status_at};
ghost use Rattle.mm_job.specs.Header.{Session};
ghost use Rattle.mm_job.specs.Output.{cut_short, is_refusal};
ghost use Rattle.mm_job.specs.State.Spending.{Spends, SpendsAtMost};
ghost use Rattle.mm_job.specs.State.Stages.{IsFirst, IsKeptAt, TakesLine, lines_from_stage, work_from_stage};
ghost use Rattle.mm_job.specs.Settings.{Settings};
ghost use Rattle.mm_header.specs.declared.state.HeaderState.TheVariants as headers;
ghost use Rattle.mm_job.specs.declared.stage.Stage.TheVariants as stages;

use crate::block::Block;
use crate::items::take_item;
use crate::output_line::OutputLine;
use crate::settings::Settings;
use crate::stage::{LineStep, Stage, take_first_line};
use mm_base::{NoMemory, Status, Steps};
use mm_header::HeaderState;
use mm_job_text::Refusal;
use mm_lines::Line;
use std::alloc::Global;
use std::mem;
use std::sync::ledger::Ledger;

/// What was read of a job, and what the lines that it wrote come to, if it wrote any.
#[derive(Drop)]
pub struct JobState {
    /// What was read.
    pub stage: Stage,
    /// What was written comes to this.
    pub status: Option<Status>,
}

/// A job that has read nothing.
pub fn nothing_read() -> JobState
    ensures { result ≡ record { stage = stages.Header headers.Format; status = None } }
{
    JobState {
        stage: Stage::Header(HeaderState::Format),
        status: None,
    }
}

/// Whether a line is a refusal.
fn is_refusal(output_line: &OutputLine) -> bool
    ensures { result ≡ is_refusal output_line.now }
{
    match output_line {
        OutputLine::Says(_) => false,
        OutputLine::Refuses(_) => true,
    }
}

/// What a job has come to after a line more.
fn after_output_line(status: Option<Status>, output_line: &OutputLine) -> Option<Status>
    ensures { result ≡ after_output_line status output_line.now }
{
    match status {
        None if is_refusal(output_line) => Some(Status::Refused),
        None => Some(Status::Done),
        Some(Status::Done) if is_refusal(output_line) => Some(Status::EditRefused),
        Some(status) => Some(status),
    }
}

/// What a job has come to after what a step writes.
pub fn after_step(status: Option<Status>, output_line: &Option<OutputLine>) -> Option<Status>
    ensures { result ≡ come_to status (written output_line.now) }
{
    match output_line {
        None => status,
        Some(output_line) => after_output_line(status, output_line),
    }
}

/// The status where nothing more is written.
pub fn status_at(status: Option<Status>) -> Status
    ensures { result ≡ status_at status }
{
    match status {
        None => Status::Done,
        Some(status) => status,
    }
}

/// Whether the job was refused.
pub fn is_refused(status: Option<Status>) -> bool
    ensures { result ≡ is_refused status }
{
    match status {
        Some(Status::Refused) => true,
        _ => false,
    }
}

/// The refusal of a text that ends in a header or a block.
fn cut_short(over: bool) -> OutputLine
    ensures { result ∷ [] ≡ cut_short (end_by over) }
{
    if over {
        OutputLine::Refuses(Refusal::TooLong)
    } else {
        OutputLine::Refuses(Refusal::Unfinished)
    }
}

/// What is written at the end of a text after its header, where a block has begun or not.
fn last_of_items(block: &Option<Block>, over: bool) -> Option<OutputLine>
    ensures { (s : Session) → written result ≡ lines_from_block (end_by over) s block.now [] }
{
    match block {
        Some(_) => Some(cut_short(over)),
        None if over => Some(OutputLine::Refuses(Refusal::TooLong)),
        None => None,
    }
}

/// What is written at the end of a text, or where it has more bytes than are used.
pub fn last_output_line(stage: &Stage, over: bool) -> Option<OutputLine>
    ensures { (settings : Settings) → written result ≡ lines_from_stage settings stage.now (end_by over) [] }
{
    match stage {
        Stage::Header(_) => Some(cut_short(over)),
        Stage::Query(_, _) => Some(cut_short(over)),
        Stage::Items(_, block) => last_of_items(block, over),
        Stage::Refused => None,
    }
}

impl JobState {
    /// Takes a line of the header or the query line.
    fn take_first<L: Ledger>(
        &mut self,
        alloc: Global,
        settings: &Settings,
        line: &Line,
        steps: &mut Steps<L>,
    ) -> Result<Option<OutputLine>, NoMemory>
        requires kept { IsKeptAt self.old.stage }
        requires first { IsFirst self.old.stage }
        ensures kept { IfOk result (λ output. IsKeptAt self.new.stage) }
        ensures step { IfOk result (λ output. TakesLine settings.now self.old.stage line.now output self.new.stage) }
        ensures spends { IfOk result (λ output. Spends (work_from_stage settings.now self.old.stage) (work_from_stage settings.now self.new.stage)
            (line.now ∷ []) [] steps.old steps.new) }
        ensures most { OnErr result (SpendsAtMost (work_from_stage settings.now self.old.stage) (line.now ∷ []) steps.old steps.new) }
        ensures status { IfOk result (λ output. self.new.status ≡ self.old.status) }
    {
        let stage = mem::replace(&mut self.stage, Stage::Refused);
        let LineStep { output_line, stage } = take_first_line(alloc, settings, stage, line, steps)?;
        self.stage = stage;
        Ok(output_line)
    }

    /// Takes a line, and gives the line that it writes.
    fn take_line<L: Ledger>(
        &mut self,
        alloc: Global,
        settings: &Settings,
        line: &Line,
        steps: &mut Steps<L>,
    ) -> Result<Option<OutputLine>, NoMemory>
        requires kept { IsKeptAt self.old.stage }
        ensures kept { IfOk result (λ output. IsKeptAt self.new.stage) }
        ensures step { IfOk result (λ output. TakesLine settings.now self.old.stage line.now output self.new.stage) }
        ensures spends { IfOk result (λ output. Spends (work_from_stage settings.now self.old.stage) (work_from_stage settings.now self.new.stage)
            (line.now ∷ []) [] steps.old steps.new) }
        ensures most { OnErr result (SpendsAtMost (work_from_stage settings.now self.old.stage) (line.now ∷ []) steps.old steps.new) }
        ensures status { IfOk result (λ output. self.new.status ≡ self.old.status) }
    {
        match &mut self.stage {
            Stage::Items(editor, block) => take_item(alloc, editor, block, line, steps),
            _ => self.take_first(alloc, settings, line, steps),
        }
    }

    /// Takes a line, and gives the line that it writes. After an `Err` the state is worth nothing more.
    pub fn take<L: Ledger>(
        &mut self,
        alloc: Global,
        settings: &Settings,
        line: &Line,
        steps: &mut Steps<L>,
    ) -> Result<Option<OutputLine>, NoMemory>
        requires kept { IsKeptAt self.old.stage }
        ensures kept { IfOk result (λ output. IsKeptAt self.new.stage) }
        ensures step { IfOk result (λ output. TakesLine settings.now self.old.stage line.now output self.new.stage) }
        ensures spends { IfOk result (λ output. Spends (work_from_stage settings.now self.old.stage) (work_from_stage settings.now self.new.stage)
            (line.now ∷ []) [] steps.old steps.new) }
        ensures most { OnErr result (SpendsAtMost (work_from_stage settings.now self.old.stage) (line.now ∷ []) steps.old steps.new) }
        ensures status { IfOk result (λ output. self.new.status ≡ come_to self.old.status (written output)) }
    {
        let output_line = self.take_line(alloc, settings, line, steps)?;
        self.status = after_step(self.status, &output_line);
        Ok(output_line)
    }
}
