//! Least sets: one row for each type at a node, with the first set of that type by weight and then by leaf word.
#![tactic(auto)]

mod best;
mod empty;
mod found;
mod known;
mod laws;
mod least;
mod log;
mod node_rows;
mod pass;
mod places;
mod row;
mod transition;

pub use best::Best;
pub use laws::rows_are_first_sets;
pub use least::Least;
pub use mm_nodes::KeepFault as LeastFault;
pub use node_rows::NodeRows;
pub use row::{Origin, Row};
