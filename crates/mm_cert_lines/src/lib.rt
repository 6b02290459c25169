//! The lines of a certificate, each by itself: what a line says, where some line of a certificate has its form.
#![tactic(auto)]

mod certificate;
mod read;
mod spaces;
mod tokens;
mod words;

pub use certificate::{AtomWord, CertLine, GlueKey, LeafKey, Numbers, Stated};
pub use read::read_line;
