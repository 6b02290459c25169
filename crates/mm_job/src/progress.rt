//! How far a job has come.
ghost use Rattle.std.specs.Prelude.{◌≡◌};
ghost use Rattle.mm_job.specs.declared.progress.JobFault.TheVariants as fault;

use mm_base::{NoMemory, Status};

/// What a job is after a piece of its text.
#[derive(Clone, Copy, Debug, PartialEq, Eq)]
pub enum Progress {
    /// More of the text may come.
    More,
    /// Nothing after it matters: the header was refused, or the text has more bytes than are used.
    Ended(Status),
}

/// Why a job stops.
#[derive(Clone, Copy, Debug, PartialEq, Eq)]
pub enum JobFault {
    /// A write failed. The sink counted it.
    Write,
    /// Memory ran out.
    NoMemory,
}

impl From<NoMemory> for JobFault {
    ghost from_gives = { λ _ e. e ≡ fault.NoMemory };

    fn from(_: NoMemory) -> Self {
        JobFault::NoMemory
    }
}
