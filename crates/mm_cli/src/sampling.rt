//! Samples: the job is made, answered in memory, and shown in short.
ghost use Rattle.std.specs.Prelude.{◌≡◌, ◌⊎◌, [], IfOk};
ghost use Rattle.mm_base.specs.Causes.{Rose};
ghost use Rattle.mm_base.specs.declared.status.Status.TheVariants as ends;
ghost use Rattle.mm_job.specs.Output.{end_of, output};
ghost use Rattle.mm_job.specs.Settings.{spelled};
ghost use Rattle.mm_cli.specs.Answers.{Writes, sample, sample_job};
ghost use Rattle.mm_cli.specs.Runs.{IsCut, IsEnd};
ghost use Rattle.mm_cli.specs.Spending.{IsWithinBound};
ghost use Rattle.mm_cli.specs.Words.{AreWithinBounds, most_limit};

use crate::reading::run;
use crate::words::{MOST_LIMIT, SampleNumbers};
use crate::writing::write;
use mm_base::{NoMemory, Sink, Status, Steps, SureSink, SureSource, Text};
use mm_sample::{sample_text, summary};
use std::alloc::Global;
use std::sync::ledger::Ledger;

/// Answers a job in memory, and says how it ends.
fn answer_job<L: Ledger>(
    alloc: Global,
    text: &[u8],
    sink: &mut SureSink,
    steps: &mut Steps<L>,
) -> Result<Status, NoMemory>
    requires { sink.old ≡ [] }
    ensures output { IfOk result (λ status. sink.new ≡ output text.now (spelled most_limit)) }
    ensures status { IfOk result (λ status. status ≡ end_of text.now (spelled most_limit)) }
    ensures steps { IsWithinBound text.now (spelled most_limit) steps.old steps.new }
{
    let mut source = SureSource::new(alloc, text)?;
    match run(alloc, MOST_LIMIT, &mut source, sink, steps) {
        Status::NoMemory => Err(NoMemory),
        status => Ok(status),
    }
}

/// What is shown of a job, and how the job ends.
#[derive(Drop)]
struct Short {
    text: Text,
    status: Status,
}

/// The job of a sample in short.
#[tactic(auto, unfolding(crate::specs::Answers::sample), using(crate::proofs::OutputLemmas::output_is_lines))]
fn shorten<L: Ledger>(
    alloc: Global,
    numbers: SampleNumbers,
    steps: &mut Steps<L>,
) -> Result<Short, NoMemory>
    requires { AreWithinBounds numbers }
    ensures short { IfOk result (λ short. sample numbers ≡ record { output = short.text; status = short.status }) }
    ensures steps { IsWithinBound (sample_job numbers) (spelled most_limit) steps.old steps.new }
{
    let job = sample_text(alloc, numbers.field, numbers.elements, numbers.seed)?;
    let mut sink = SureSink::new(alloc);
    let status = answer_job(alloc, job.bytes(), &mut sink, steps)?;
    let text = summary(alloc, sink.bytes())?;
    Ok(Short { text, status })
}

/// Answers the job of a sample in short.
pub fn sample<K: Sink, L: Ledger>(
    alloc: Global,
    numbers: SampleNumbers,
    sink: &mut K,
    steps: &mut Steps<L>,
) -> Status
    requires { AreWithinBounds numbers }
    ensures answer { Writes (sample numbers) (K.held sink.old) (K.held sink.new) result }
    ensures ends { IsEnd result ⊎ IsCut result }
    ensures read_fault { result ≡ ends.ReadFault → ⊥ }
    ensures write_fault { result ≡ ends.WriteFault → Rose (K.faults sink.old) (K.faults sink.new) }
    ensures steps { IsWithinBound (sample_job numbers) (spelled most_limit) steps.old steps.new }
{
    match shorten(alloc, numbers, steps) {
        Ok(short) => write(short.text.bytes(), short.status, sink),
        Err(NoMemory) => Status::NoMemory,
    }
}
