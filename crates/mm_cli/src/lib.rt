//! The top call of the tool: the words of the command line, and the commands that they ask for.
//!
//! Each command is one function with one definition of what it answers (`specs/Answers`): a job is answered while it is read, and
//! every other command writes one answer at its end.
#![tactic(auto)]

mod building;
mod minors;
mod reading;
mod sampling;
mod tool;
mod whole;
mod words;
mod writing;

pub use tool::top;
pub use words::{Command, MinorMatrix, SampleNumbers, command_of};
