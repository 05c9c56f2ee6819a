//! A walk through the runs of one hart against a list of stores: against what it runs, which states were met and need not be followed, what
//! is settled, and what a load can read.
//!
//! It is for searches. What it says isn't proved of executions.
#![tactic(auto)]

mod choosing;
mod guest;
mod meeting;
mod walk;

pub use choosing::{Choice, choices, newest_choice, number_from, private_number, sources_at};
pub use guest::{Against, Guest};
pub use walk::{Kept, MetState, Mode, Walk};
