//! Parse trees from decompositions: a binary tree over the elements of a matrix, and at each of its nodes the space that the columns
//! below have in common with the columns outside.
//!
//! Begin with `build_tree`. It looks at each node once, from the leaves up, and never at what lies outside a node: one basis of the
//! dependencies of all columns stands for that.
#![tactic(auto)]

mod build;
mod build_lines;
mod build_output;
mod build_state;
mod columns;
mod decomposition;
mod dual;
mod form;
mod operator;
mod read;
mod shape;
mod shape_builder;
mod step_lines;
mod tree_shape;
mod tree_text;
mod write;

pub use build::{DecompFault, build_tree};
pub use build_output::build_text;
pub use decomposition::{BuildText, LineNumbers};
pub use dual::dual_text;
pub use read::read_build;
pub use shape::{Shape, Step};
pub use shape_builder::{ShapeBuilder, ShapeFault};
pub use tree_shape::shape_of;
pub use tree_text::{TreeText, read_tree_text};
pub use write::write_header;
