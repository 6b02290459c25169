//! A job, line by line.
ghost use Rattle.std.specs.Prelude.{◌≡◌, ◌≤◌, ◌∷◌, ℕ, List, [], IfOk, OnErr};
ghost use Rattle.mm_lines.specs.declared.line.Line.{Line as LineOf};
ghost use Rattle.mm_job.specs.State.Spending.{Spends, SpendsAtMost};
ghost use Rattle.mm_job.specs.State.Stages.{IsFirst, IsKeptAt, TakesLine, work_from_stage};
ghost use Rattle.mm_job.specs.declared.stage.Stage.TheVariants as stages;
ghost use Rattle.mm_job.specs.Settings.{Settings};

use crate::block::Block;
use crate::editor::{Editor, answer, start};
use crate::output_line::OutputLine;
use crate::settings::Settings;
use mm_base::{NoMemory, Steps};
use mm_header::{HeaderData, HeaderRules, HeaderState, HeaderStep, take_header_line};
use mm_job_text::Stop;
use mm_lines::Line;
use mm_tree::Tree;
use std::alloc::Global;
use std::sync::ledger::Ledger;

/// What was read of a job, by what may come next.
#[derive(Drop)]
pub enum Stage {
    /// The header up to its tree.
    Header(HeaderState),
    /// The query.
    Query(HeaderData, Tree),
    /// An item, or a line of the block that has begun.
    Items(Editor, Option<Block>),
    /// Nothing: the header was refused.
    Refused,
}

/// What a line of a job says, and what may come next.
#[derive(Drop)]
pub struct LineStep {
    /// The line that is written.
    pub output_line: Option<OutputLine>,
    /// What may come next.
    pub stage: Stage,
}

/// Takes a line of a header.
fn take_header(alloc: Global, header: HeaderState, line: &Line) -> Result<LineStep, NoMemory>
    requires kept { IsKeptAt (stages.Header header) }
    ensures kept { IfOk result (λ taken. IsKeptAt taken.stage) }
    ensures step { IfOk result (λ taken. (settings : Settings) → TakesLine settings (stages.Header header) line.now taken.output_line taken.stage) }
    ensures works { IfOk result (λ taken. (settings : Settings) (rs : List LineOf) →
        work_from_stage settings (stages.Header header) (line.now ∷ rs) ≡ work_from_stage settings taken.stage rs) }
{
    match take_header_line(alloc, HeaderRules::of_job(), header, line) {
        Ok(HeaderStep::More(header)) => Ok(LineStep {
            output_line: None,
            stage: Stage::Header(header),
        }),
        Ok(HeaderStep::Parts(header, tree)) => Ok(LineStep {
            output_line: None,
            stage: Stage::Query(header, tree),
        }),
        Err(Stop::Refused(refusal)) => Ok(LineStep {
            output_line: Some(OutputLine::Refuses(refusal)),
            stage: Stage::Refused,
        }),
        Err(Stop::NoMemory) => Err(NoMemory),
    }
}

/// Takes the query line.
fn take_query<L: Ledger>(
    alloc: Global,
    settings: &Settings,
    header: HeaderData,
    tree: Tree,
    line: &Line,
    steps: &mut Steps<L>,
) -> Result<LineStep, NoMemory>
    requires kept { IsKeptAt (stages.Query header tree) }
    ensures kept { IfOk result (λ taken. IsKeptAt taken.stage) }
    ensures step { IfOk result (λ taken. TakesLine settings.now (stages.Query header tree) line.now taken.output_line taken.stage) }
    ensures spends { IfOk result (λ taken. Spends (work_from_stage settings.now (stages.Query header tree)) (work_from_stage settings.now taken.stage)
        (line.now ∷ []) [] steps.old steps.new) }
    ensures most { OnErr result (SpendsAtMost (work_from_stage settings.now (stages.Query header tree)) (line.now ∷ []) steps.old steps.new) }
{
    match start(alloc, settings, header, tree, line, steps) {
        Ok(editor) => {
            let output_line = answer(alloc, &editor)?;
            Ok(LineStep {
                output_line: Some(output_line),
                stage: Stage::Items(editor, None),
            })
        }
        Err(Stop::Refused(refusal)) => Ok(LineStep {
            output_line: Some(OutputLine::Refuses(refusal)),
            stage: Stage::Refused,
        }),
        Err(Stop::NoMemory) => Err(NoMemory),
    }
}

/// Takes a line of the header or the query line.
pub fn take_first_line<L: Ledger>(
    alloc: Global,
    settings: &Settings,
    stage: Stage,
    line: &Line,
    steps: &mut Steps<L>,
) -> Result<LineStep, NoMemory>
    requires kept { IsKeptAt stage }
    requires first { IsFirst stage }
    ensures kept { IfOk result (λ taken. IsKeptAt taken.stage) }
    ensures step { IfOk result (λ taken. TakesLine settings.now stage line.now taken.output_line taken.stage) }
    ensures spends { IfOk result (λ taken. Spends (work_from_stage settings.now stage) (work_from_stage settings.now taken.stage)
        (line.now ∷ []) [] steps.old steps.new) }
    ensures most { OnErr result (SpendsAtMost (work_from_stage settings.now stage) (line.now ∷ []) steps.old steps.new) }
{
    match stage {
        Stage::Header(header) => take_header(alloc, header, line),
        Stage::Query(header, tree) => take_query(alloc, settings, header, tree, line, steps),
        stage => Ok(LineStep {
            output_line: None,
            stage,
        }),
    }
}
