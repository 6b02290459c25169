//! Jobs: a text of a matroid, a query and edits, and the answers to them, written while the text comes.
//!
//! Begin with [`Job`], which is fed a text in any pieces: after each piece it has written what the closed lines of the text so far
//! cause, and `finish` writes the rest. What a text causes is its output, a definition; how far a job has come is a state that is
//! changed line by line, and a line costs the time of its own tokens and of its answer. A job keeps its text and its present tree.
#![tactic(auto)]

mod block;
mod edit;
mod editor;
mod feed;
mod items;
mod job;
mod laws;
mod output_line;
mod progress;
mod settings;
mod stage;
mod state;

pub use job::Job;
pub use laws::{
    a_refused_header_ends_a_job, an_ended_job_is_final, the_output_grows_with_the_text,
    the_work_grows_with_the_text, too_long_a_text_ends_a_job,
};
pub use output_line::OutputLine;
pub use progress::{JobFault, Progress};
