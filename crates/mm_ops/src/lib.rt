//! Operators of parse trees, valid by construction, and the table that names them.
#![tactic(auto)]

mod independence;
mod laws;
mod op;
mod table;

pub use laws::valid_operators_have_no_fault;
pub use op::{Op, OpFault};
pub use table::{OpTable, OpTableFault};
