//! Sessions: a tree, what is asked of it, and what its nodes keep, through edits.
//!
//! An edit makes what is kept anew below its place and above it, as far as a parent can tell it from before. The kept types go on, one
//! edit after the other, until they would exceed the limit: then all is made afresh for the present tree, unless this tree alone is over
//! the limit. Every refusal leaves all as it was, want of memory in the middle of an edit included.
#![tactic(auto)]

mod answer;
mod fault;
mod query;
mod session;
mod states;

pub use answer::Answer;
pub use fault::{EditFault, StartFault};
pub use query::Query;
pub use session::Session;
