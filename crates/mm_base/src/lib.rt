//! What every other crate of the tool stands on: bytes in and out, names, texts, the status of a
//! run, and the counter of its steps.
//!
//! - [`Source`] and [`Sink`] are where bytes come from and go to. Each counts its faults, so that
//!   a failed run can be known from one that was given up: `Failed` comes only where the count rose.
//!   Over memory there are exact ones that fail at given calls, and ones that never fail; standard
//!   input and output tell nothing of their contents.
//! - [`write_all`] writes a whole piece, or a front of it and the reason.
//! - [`Name`], [`NameList`] and [`Text`] are seen by contracts as lists of bytes.
//! - [`Steps`] is a counter that exists for contracts alone.
#![tactic(auto)]

mod failure;
mod name;
mod sink;
mod source;
mod status;
mod steps;
mod text;

pub use failure::{Failed, NoMemory, SinkFault};
pub use name::{Name, NameList};
pub use sink::{MemorySink, Sink, StdSink, SureSink, write_all};
pub use source::{MemorySource, Source, StdSource, SureSource};
pub use status::Status;
pub use steps::Steps;
pub use text::{Text, TextFault};
