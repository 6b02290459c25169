//! The lines of a job one by one: what each says, or the first of its refusals.
#![tactic(auto)]

mod arguments;
mod digits;
mod format;
mod header_lines;
mod name_set;
mod names;
mod operator_line;
mod operators;
mod refusal;
mod refusal_text;
mod round_trip;
mod rows;
mod tree_lines;

pub use arguments::{args, begins, is_text, is_word, one, three, too_long, two};
pub use digits::read_digits;
pub use format::Format;
pub use header_lines::{read_field, read_format, read_tree};
pub use name_set::NameSet;
pub use names::add_elements;
pub use operator_line::{OperatorLine, ThirdMatrix, read_operator};
pub use operators::add_operator;
pub use refusal::{Limit, Refusal, Stop};
pub use refusal_text::words;
pub use round_trip::{read_trees_have_their_operators, written_trees_are_read_back};
pub use rows::add_row;
pub use tree_lines::{ElementLine, VoidLine, is_tree_part, read_element, read_join, read_void};
