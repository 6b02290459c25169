//! What formulas mean on small trees, computed by listing: the lower part of the reference evaluator, `mm_reference`.
//!
//! It makes the matrix of a tree, tries all coefficients to decide independence, and tries all sets and all elements to decide a
//! formula or to find its least set. What the reference evaluator needs to read types is exported beside the calls that users of
//! `mm_reference` see.
#![tactic(auto)]

mod combinations;
mod first_sets;
mod meaning;
mod tree;
mod validity;

pub use combinations::{coordinates, in_span, independent, is_zero};
pub use first_sets::{LeastSet, least};
pub use meaning::{
    Connective, Formula, Marks, Term, assign, holds, is_same_set, is_subset, none, sets, singles,
    some_has_both, union_columns,
};
pub use tree::{Op, Tree, boundary, internal, push_zeros};
pub use validity::{decide, is_valid, push_unmarked, unmarked};
