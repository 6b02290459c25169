//! The matrix of a tree, and its comparison with a given one.
#![tactic(auto)]

mod collecting;
mod comparison;
mod coordinates;
mod dependencies;
mod images;
mod independence;
mod join_cache;
mod join_rows;
mod present;
mod vectors;

pub use comparison::{Verdict, compare, first_missing};
pub use independence::is_independent;
pub use present::{Named, matrix_of};
