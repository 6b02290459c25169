//! Types of formulas as numbers: what a leaf shows, what an automaton promises, and the table that numbers values.
//!
//! - [`Automaton`] is the contract of everything that numbers the types of a formula: a call answers the number of the value that
//!   the leaf rule or the join rule gives, its lists grow by exactly what occurs in that value and was missing, and it is `Full`
//!   exactly where that needs more room than is given. Runs and least sets speak of this contract alone.
//! - [`Letter`] is what a leaf shows to it.
//! - [`Table`] numbers values in order of first sight: a look-up is one hash, and a value is kept once.
#![tactic(auto)]

mod automaton;
mod cache;
mod grid;
mod joins;
mod letter;
mod memo;
mod table;

pub use automaton::Automaton;
pub use joins::JoinMemo;
pub use letter::{AutoFault, Letter};
pub use memo::Memo;
pub use table::{Table, TypeId};
