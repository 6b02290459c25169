//! Parse trees with names and weights: always valid, found by leaf name, edited in place.
#![tactic(auto)]

mod builder;
mod node;
mod place;
mod replace;
mod splice;
mod tree;
mod walk;
mod write;

pub use builder::{BuildFault, Builder};
pub use node::{Item, Leaf, Node};
pub use place::Place;
pub use replace::ReplaceFault;
pub use tree::Tree;
pub use write::{append_vector, write_tree};

/// The most leaves of a tree.
const MAX_LEAVES: usize = 8192;

/// The most joins above a leaf.
const MAX_DEPTH: u32 = 1023;
