//! Tests of automata: the calls of each atom and of machines, through the bound of automata, at an element and at a join of two.
#![tactic(auto)]

#[cfg(test)]
mod automata;
pub mod calls;
#[cfg(test)]
mod machine;
pub mod machines;
