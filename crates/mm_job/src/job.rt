//! A job, whose text comes in pieces.
use crate::feed::{take_last, take_piece, take_text_end};
use crate::progress::{JobFault, Progress};
use crate::settings::Settings;
use crate::state::{JobState, is_refused, nothing_read};
use mm_base::{Sink, Status, Steps};
use mm_formula::Formula;
use mm_lines::{Framer, MOST_BYTES};
use std::alloc::Global;
use std::marker::Model;
use std::sync::ledger::Ledger;

/// A job whose text comes in pieces, and which writes what each piece settles. Contracts see it as the text so far, how it is asked,
/// and whether it goes on.
#[derive(Drop)]
pub struct Job {
    settings: Settings,
    framer: Framer,
    /// How many bytes of the text were taken.
    taken: usize,
    state: JobState,
    live: bool,
}

impl Model for Job {
    ghost use Rattle.mm_job.specs.Jobs.{JobValue, job_code};

    ghost Value = { JobValue };

    ghost coded = { job_code };

    ghost use Rattle.mm_job.specs.State.Kept.{IsJob, state_of};

    ghost view = { state_of };

    ghost invariant = { IsJob };
}

impl Job {
    ghost use Rattle.std.specs.Prelude.{◌≡◌, ◌≤◌, ◌+◌, ◌++◌, [], true, false, None, Ok, IfOk, length};
    ghost use Rattle.mm_formula.specs.Scope.{scope_fault};
    ghost use Rattle.mm_formula.specs.Syntax.{is_well_sorted, syntax_of};
    ghost use Rattle.mm_lines.specs.Lines.{most_bytes};
    ghost use Rattle.mm_job.specs.Calls.{SpendsOnText, Writes};
    ghost use Rattle.mm_job.specs.Jobs.{goes_on, progress, with_piece};
    ghost use Rattle.mm_job.specs.Output.{Over, end_of, output, settled_output};
    ghost use Rattle.mm_job.specs.Settings.{spelled, with_formula};
    ghost use Rattle.mm_job.specs.State.Standing.{status_over, written_at};
    ghost use Rattle.mm_job.specs.Work.{bound_of, settled_work};
    ghost use Rattle.mm_job.specs.declared.progress.Progress.TheVariants.{Ended, More};

    /// A job with no text so far.
    fn begin(alloc: Global, settings: Settings) -> Job
        ensures { result ≡ record { text = []; settings = settings; live = true } }
    {
        Job {
            settings,
            framer: Framer::new(alloc),
            taken: 0,
            state: nothing_read(),
            live: true,
        }
    }

    /// A job with no text so far, with this limit on sizes. Its query line spells its query. It takes no memory yet.
    pub fn new(alloc: Global, limit: u64) -> Job
        requires least { 1 ≤ limit }
        requires most { limit ≤ 4194304 }
        ensures { result ≡ record { text = []; settings = spelled limit; live = true } }
    {
        Job::begin(alloc, Settings::spelled(limit))
    }

    /// A job with no text so far, with this limit on sizes. Its query line is the word `minor`, which asks whether this formula holds:
    /// the formula is well sorted, each of its variables has a binder, and it is within the limits of a formula. It takes no memory
    /// yet.
    pub fn with_query(alloc: Global, limit: u64, formula: Formula) -> Job
        requires least { 1 ≤ limit }
        requires most { limit ≤ 4194304 }
        requires sorted { is_well_sorted (syntax_of formula) ≡ true }
        requires scoped { scope_fault (syntax_of formula) None ≡ None }
        ensures { result ≡ record { text = []; settings = with_formula limit (syntax_of formula); live = true } }
    {
        Job::begin(alloc, Settings::with_formula(alloc, limit, formula))
    }

    /// Takes a piece that is used as a whole.
    fn feed_all<K: Sink, L: Ledger>(
        &mut self,
        alloc: Global,
        piece: &[u8],
        out: &mut K,
        steps: &mut Steps<L>,
    ) -> Result<Progress, JobFault>
        requires live { self.old.live ≡ true }
        requires size { length self.old.text + length piece.now ≤ most_bytes }
        ensures progress { IfOk result (λ p. p ≡ progress (self.old.text ++ piece.now) self.old.settings) }
        ensures text { result ≡ Ok More → self.new.text ≡ self.old.text ++ piece.now }
        ensures settings { self.new.settings ≡ self.old.settings }
        ensures live { self.new.live ≡ goes_on result }
        ensures writes { Writes K.held K.faults out.old out.new
            (settled_output self.old.text self.old.settings) (settled_output (self.old.text ++ piece.now) self.old.settings) result }
        ensures steps { SpendsOnText steps.old steps.new (settled_work self.old.text self.old.settings) (settled_work (self.old.text ++ piece.now) self.old.settings) }
    {
        self.live = false;
        take_piece(
            alloc,
            &self.settings,
            &mut self.state,
            &mut self.framer,
            piece,
            out,
            steps,
        )?;
        if is_refused(self.state.status) {
            return Ok(Progress::Ended(Status::Refused));
        }
        self.taken += piece.len();
        self.live = true;
        Ok(Progress::More)
    }

    /// Takes the last piece that is used of a text with more bytes.
    fn feed_last<K: Sink, L: Ledger>(
        &mut self,
        alloc: Global,
        piece: &[u8],
        out: &mut K,
        steps: &mut Steps<L>,
    ) -> Result<Progress, JobFault>
        requires live { self.old.live ≡ true }
        requires size { length self.old.text + length piece.now ≤ most_bytes }
        ensures progress { IfOk result (λ p. p ≡ Ended (status_over self.old.settings (self.old.text ++ piece.now))) }
        ensures settings { self.new.settings ≡ self.old.settings }
        ensures live { self.new.live ≡ false }
        ensures writes { Writes K.held K.faults out.old out.new
            (settled_output self.old.text self.old.settings) (written_at Over self.old.settings (self.old.text ++ piece.now)) result }
        ensures steps { SpendsOnText steps.old steps.new (settled_work self.old.text self.old.settings) (settled_work (self.old.text ++ piece.now) self.old.settings) }
    {
        self.live = false;
        let status = take_last(
            alloc,
            &self.settings,
            &mut self.state,
            &mut self.framer,
            piece,
            out,
            steps,
        )?;
        Ok(Progress::Ended(status))
    }

    /// The text goes on with this piece, and what it settles is written. The job ends where the header is refused, and where the
    /// text has more bytes than are used: nothing that comes after matters then. After an `Err` a front of what is settled was
    /// written: `Write` comes only where the sink counted a fault, and the job does not go on.
    pub fn feed<K: Sink, L: Ledger>(
        &mut self,
        alloc: Global,
        piece: &[u8],
        out: &mut K,
        steps: &mut Steps<L>,
    ) -> Result<Progress, JobFault>
        requires live { self.old.live ≡ true }
        ensures progress { IfOk result (λ p. p ≡ progress (with_piece self.old.text piece.now) self.old.settings) }
        ensures text { result ≡ Ok More → self.new.text ≡ with_piece self.old.text piece.now }
        ensures settings { self.new.settings ≡ self.old.settings }
        ensures live { self.new.live ≡ goes_on result }
        ensures writes { Writes K.held K.faults out.old out.new
            (settled_output self.old.text self.old.settings) (settled_output (with_piece self.old.text piece.now) self.old.settings) result }
        ensures steps { SpendsOnText steps.old steps.new
            (settled_work self.old.text self.old.settings) (settled_work (with_piece self.old.text piece.now) self.old.settings) }
    {
        let room = MOST_BYTES - self.taken;
        if piece.len() > room {
            self.feed_last(alloc, &piece[..room], out, steps)
        } else {
            self.feed_all(alloc, piece, out, steps)
        }
    }

    /// The text has ended, and the rest of the output is written. After an `Err` a front of it was written. The job does not go on.
    pub fn finish<K: Sink, L: Ledger>(
        &mut self,
        alloc: Global,
        out: &mut K,
        steps: &mut Steps<L>,
    ) -> Result<Status, JobFault>
        requires live { self.old.live ≡ true }
        ensures status { IfOk result (λ status. status ≡ end_of self.old.text self.old.settings) }
        ensures settings { self.new.settings ≡ self.old.settings }
        ensures live { self.new.live ≡ false }
        ensures writes { Writes K.held K.faults out.old out.new
            (settled_output self.old.text self.old.settings) (output self.old.text self.old.settings) result }
        ensures steps { SpendsOnText steps.old steps.new
            (settled_work self.old.text self.old.settings) (bound_of self.old.text self.old.settings) }
    {
        self.live = false;
        take_text_end(
            alloc,
            &self.settings,
            &mut self.state,
            &mut self.framer,
            out,
            steps,
        )
    }

    /// Whether the job goes on: no call of `feed` on it answered `Ended`, none answered an error, and it was not finished.
    pub fn live(&self) -> bool
        ensures { result ≡ self.now.live }
    {
        self.live
    }
}
