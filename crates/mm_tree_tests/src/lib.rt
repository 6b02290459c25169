//! Tests of the crates of trees and their matrices: each call that takes memory succeeds once with memory at hand, each generic call
//! is made at a concrete type, and values from outside the program. A module for each crate.
#![tactic(auto)]

#[cfg(test)]
mod decomp;
#[cfg(test)]
mod present;
#[cfg(test)]
mod tree;
