//! The commands that ask recordings and executions about the past: `replay` and `watch`.
#![tactic(auto)]

mod answer;
mod checked;
mod executions;
mod looking;
mod naming;
mod noting;
mod past;
mod placing;
mod positions;
mod question;
mod refusing;
mod replaying;
mod telling;
mod watched;
mod watching;

pub use answer::Answer;
pub use executions::{refuse_rounds, refuse_workers};
pub use naming::access_ranges;
pub use past::{Past, read_past};
pub use replaying::replay_command;
pub use watching::watch_command;
