//! The header of a text line by line, from its format to the `end` of its tree, the query line, and how the given rows and the tree
//! agree. What differs between the texts that have a header is a parameter: the limits on names and leaves, and how the query line
//! is read. The numbers of lines are those that the lines carry, so a header may begin anywhere in a text.
//!
//! Begin with `HeaderState`, which takes one line after another: each step says what the lines after it make of the whole header.
//! Nothing is kept twice, and a line costs the time of its own tokens.
#![tactic(auto)]

mod agreement;
mod query;
mod rules;
mod state;
mod tree_lines;

pub use agreement::match_rows;
pub use query::{read_minor, read_query};
pub use rules::HeaderRules;
pub use state::{HeaderData, HeaderState, HeaderStep, take_header_line};
pub use tree_lines::Trees;
