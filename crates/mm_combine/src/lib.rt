//! The tables of the compound parts of a formula: pairs of numbers for a connective, sets of numbers for a set quantifier, and sets
//! with a number beside each for an element quantifier. Each numbers its values in order of first sight, knows their cells without a
//! walk, and goes back to a mark.
//!
//! One table ([`MarkedTable`]) stands under all three. A set is hashed by a digest that grows with it, and compared number by number
//! only where digests are equal; a value is copied only where it is new.
#![tactic(auto)]

mod marked;
mod members;
mod ones;
mod pairs;
mod sets;

pub use marked::{MarkedTable, TableKey};
pub use members::Members;
pub use ones::{OneIds, OneTable};
pub use pairs::{PairTable, PartIds};
pub use sets::SetTable;
