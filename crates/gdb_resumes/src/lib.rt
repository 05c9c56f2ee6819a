//! Where a recorded run stands when a debugger has resumed it, on or back to what is told next, and where a user can have it stop.
#![tactic(auto)]

mod goals;
mod going;
mod searching;

pub use goals::{Goal, goal_at_place, goal_at_round};
pub use searching::{Reach, Search, Searched};
