//! One run per node.
#![tactic(auto)]

mod laws;
mod run;
mod runs;

pub use laws::runs_stand_as_listed;
pub use mm_nodes::KeepFault as RunFault;
pub use run::NodeRun;
pub use runs::Runs;
