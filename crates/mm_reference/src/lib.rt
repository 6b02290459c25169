//! What the definitions of the logic say, computed by listing: a plain, slow program for tests.
//!
//! It makes the matrix of a tree, tries all coefficients to decide independence, tries all sets and all elements to decide a
//! formula, to read its type or to find its least set, and tries all vectors to read a boundary space. It joins no types and keeps
//! no tables. Tests compare the program with it on small trees. Meaning and least sets are computed by `mm_reference_meaning`, types
//! and state sizes here.
#![tactic(auto)]

mod sizes;
mod spaces;
mod types;
mod values;

pub use mm_reference_meaning::{
    Connective, Formula, LeastSet, Marks, Op, Term, Tree, coordinates, decide, holds, in_span,
    independent, is_valid, least,
};
pub use sizes::{Question, state_size};
pub use types::type_of;
pub use values::Value;
