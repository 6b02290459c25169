//! Tests of the crates of texts: what no clause says. Each call that takes memory succeeds once with memory at hand, each generic
//! call is made at a concrete type, and values from outside the program. A module for each crate. A crate with tests of its own
//! would be proved twice, so they stand here, above all that they call; the algebra, trees and automata have such a crate each.
#![tactic(auto)]

#[cfg(test)]
mod base;
#[cfg(test)]
mod formula;
#[cfg(test)]
mod formula_text;
#[cfg(test)]
mod job_text;
#[cfg(test)]
mod lines;
#[cfg(test)]
mod minors;
#[cfg(test)]
mod sample;
