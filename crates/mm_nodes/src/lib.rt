//! What is kept at the nodes of a tree.
#![tactic(auto)]

mod build;
mod change;
mod exchange;
mod keeps;
mod kept;
mod letters;
mod redo_tree;
mod remake;
mod sketches;

pub use keeps::{KeepFault, Keeps};
pub use kept::Kept;
pub use letters::letter_of;
pub use redo_tree::{of, redo};

/// The greatest limit on state sizes.
pub const MAX_LIMIT: u64 = 4_194_304;

/// More rows than any walk counts: the limit, and the rows of one entry.
const MOST_ROWS: u64 = 8_589_934_592;
