//! Tests of the crates of algebra: each call that takes memory succeeds once with memory at hand, each generic call is made at a
//! concrete type, and values from outside the program. A module for each crate.
#![tactic(auto)]

#[cfg(test)]
mod field;
#[cfg(test)]
mod matrix;
#[cfg(test)]
mod ops;
#[cfg(test)]
mod space;
