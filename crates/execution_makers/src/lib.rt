//! Makes the files of executions: of a run, and of a script that is followed.
#![tactic(auto)]

mod paces;
mod running;
mod scripted;

pub use running::execution_of_run;
pub use scripted::{ScriptedGuest, execution_of_script};
