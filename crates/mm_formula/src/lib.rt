//! Formulas of monadic second-order logic over the elements of a matroid: variables, terms, formulas and their scope.
#![tactic(auto)]

mod formula;
mod scope;
mod var;

pub use formula::{Connective, Formula, Term};
pub use scope::{ScopeFault, Scoped, slots_are_sorted};
pub use var::{Var, VarList};
