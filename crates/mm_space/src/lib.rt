//! Vectors of at most 18 digits, subspaces of F^r for r at most 18, and packed subspaces of F^t for t at most 6.
//!
//! `Vector` and `Gen` are read from text and never change. `Space` is the workbench of a join of types: spans, sums,
//! images. `Key` is a small subspace in one number, to be compared, hashed and kept by the million. No call takes memory.
#![tactic(auto)]

mod generator;
mod images;
mod join_rows;
mod joining;
mod key;
mod rows;
mod space;
mod vector;

pub use generator::Gen;
pub use join_rows::JoinRows;
pub use joining::JoinForm;
pub use key::Key;
pub use space::{Space, first_units};
pub use vector::Vector;

/// The most digits of a vector, and the greatest r of a `Space`.
pub const MAX_DIGITS: u8 = 18;

/// The most vectors of a `Gen`, and the greatest t of a `Key`.
pub const MAX_ROWS: u8 = 6;

/// How many bytes a stored vector takes: room for `MAX_ROWS` and `MAX_DIGITS` digits side by side.
pub(crate) const WIDTH: usize = 24;
