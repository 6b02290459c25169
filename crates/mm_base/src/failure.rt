//! The errors of reading and writing, and want of memory.
ghost use Rattle.mm_base.specs.declared.failure.SinkFault.TheVariants.{NoMemory as sink_memory};
ghost use Rattle.std.specs.Prelude.{◌≡◌};

use std::alloc::{AllocError, AllocFailed};
use thiserror::Error;

/// A read failed. The source counted it.
#[derive(Clone, Copy, Debug, PartialEq, Eq, Error)]
#[error("the read failed")]
pub struct Failed;

/// Memory ran out. Nothing else is said by it.
#[derive(Clone, Copy, Debug, PartialEq, Eq, Error)]
#[error("memory ran out")]
pub struct NoMemory;

/// Why a sink took nothing of a piece.
#[derive(Clone, Copy, Debug, PartialEq, Eq, Error)]
pub enum SinkFault {
    /// The write failed. The sink counted it.
    #[error("the write failed")]
    Failed,
    /// Memory ran out.
    #[error("memory ran out")]
    NoMemory,
}

impl From<AllocError> for NoMemory {
    fn from(_: AllocError) -> Self {
        NoMemory
    }
}

impl<T: Drop> From<AllocFailed<T>> for NoMemory {
    fn from(_: AllocFailed<T>) -> Self {
        NoMemory
    }
}

impl From<AllocError> for SinkFault {
    ghost from_gives = { λ _ e. e ≡ sink_memory };

    fn from(_: AllocError) -> Self {
        SinkFault::NoMemory
    }
}
