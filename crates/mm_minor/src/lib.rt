//! The minor formula of a matrix N: it holds on a represented matroid exactly where that matroid has the matroid of N as a minor.
//!
//! [`minor_formula`] makes it, with a condition for each subset of the columns, so it has twice the size for one column more.
//! [`minors_are_asked`] is the law that says what it means, and [`any_set_may_be_contracted`] that it misses no minor.
#![tactic(auto)]

mod conditions;
mod formula;
mod independence;
mod laws;
mod names;

pub use formula::minor_formula;
pub use laws::{any_set_may_be_contracted, minors_are_asked};
pub use names::MAX_COLUMNS;
