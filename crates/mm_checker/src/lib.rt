//! Certificates of answers, and their checker.
//!
//! A certificate lists values by numbers, what the leaf rule and the join rule give of them at the leaves and joins of a parse tree,
//! and for each node of the tree the types that occur there, each with its lightest set. The checker takes it line by line and
//! makes no type of its own: a line passes where the rule gives what it says from lines before it. So its answer is right, whoever
//! wrote the text. `specs/Certificates` says when a line passes; `specs/Laws` says what follows.
//!
//! A line costs its own length, a look-up for each line that it rests on, and at a node one for each choice.
#![tactic(auto)]

mod accepts;
mod boundaries;
mod certificate;
mod claims;
mod laws;
mod nodes;
mod places;
mod rules;
mod spaces;
mod tree_lines;
mod values;

pub use certificate::{Content, Valued};
pub use laws::passing_certificates_are_right;
pub use mm_cert_lines::{AtomWord, CertLine, GlueKey, LeafKey, Numbers, Stated};
