//! Laws of the output of a job, for whole texts.
ghost use Rattle.std.specs.Prelude.{◌≡◌, ℕ, List, true};
ghost use Rattle.mm_lines.specs.Lines.{is_over};
ghost use Rattle.mm_base.specs.declared.status.Status.{Status};
ghost use Rattle.mm_job.specs.Jobs.{progress};
ghost use Rattle.mm_job.specs.Output.{end_of};
ghost use Rattle.mm_job.specs.Settings.{Settings};
ghost use Rattle.mm_job.specs.declared.progress.Progress.TheVariants.{Ended};
ghost use Rattle.mm_job.specs.Laws.{Grows, IsFinal, IsRefused, WorkGrows};

/// What is settled of the output stays, however the text goes on, and when it ends.
pub fn the_output_grows_with_the_text()
    ensures { (settings : Settings) (a b : List ℕ) → Grows settings a b }
{}

/// The work for what is settled never falls as the text goes on, and is within the bound of the text.
pub fn the_work_grows_with_the_text()
    ensures { (settings : Settings) (a b : List ℕ) → WorkGrows settings a b }
{}

/// Nothing is used after a line that refuses the header.
pub fn a_refused_header_ends_a_job()
    ensures { (settings : Settings) (a b : List ℕ) → IsRefused settings a → IsFinal settings a b }
{}

/// Nothing is used after the bytes that a text may have.
pub fn too_long_a_text_ends_a_job()
    ensures { (settings : Settings) (a b : List ℕ) → is_over a ≡ true → IsFinal settings a b }
{}

/// Where a job has ended, nothing matters that comes after its text, and its status is that of the text.
pub fn an_ended_job_is_final()
    ensures { (settings : Settings) (a b : List ℕ) (s : Status) → progress a settings ≡ Ended s → IsFinal settings a b × (end_of a settings ≡ s) }
{}
