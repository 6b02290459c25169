//! Job texts as the reference evaluator takes them, and its types as text: what the tests of the top call want beside it.
#![tactic(auto)]

mod slots;
mod texts;
mod types;

pub use texts::{JobText, Query, read_job};
pub use types::show;
