//! Tests of the crates of automata: each call that takes memory succeeds once with memory at hand, each generic call is made at a
//! concrete type. A module for each crate.
#![tactic(auto)]

#[cfg(test)]
mod base_auto;
#[cfg(test)]
mod combine;
#[cfg(test)]
mod states;
