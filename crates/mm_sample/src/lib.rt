//! Samples: jobs of any size that a number gives, for trying the tool, and a short form of what they write.
//!
//! [`sample_text`] is the text of a job with a tree of n elements, the question for a basis of least weight, and n edits, all
//! drawn by a generator from its seed. [`summary`] is what is shown of a job's lines: how many, the first and the last.
#![tactic(auto)]

mod chain;
mod draws;
mod edits;
mod header;
mod job;
mod laws;
mod numbers;
mod operators;
mod short;

pub use job::sample_text;
pub use laws::written_lines_are_found;
pub use short::summary;
