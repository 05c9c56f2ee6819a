//! The command that checks an execution of a file: `check`.
#![tactic(auto)]

mod checking;
mod reading;
mod verdicts;

pub use checking::check_command;
pub use reading::{is_execution, read_execution_text};
pub use verdicts::{is_allowed, put_verdict, verdict_status, verdict_text};
