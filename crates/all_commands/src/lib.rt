//! The command `all`, which searches for all endings of a guest program.
#![tactic(auto)]

mod endings;
mod searches;
mod status;
mod telling;

pub use endings::all_command;
pub use searches::{EndingsSearcher, EndingsSearches};
