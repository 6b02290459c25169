//! The text of formulas: reading it and printing it.
#![tactic(auto)]

mod fault;
mod parser;
mod printer;
mod reader;
mod term;
mod token;

pub use fault::ReadFault;
pub use printer::{canonical_text_derives, print};
pub use reader::{one_formula, read};
