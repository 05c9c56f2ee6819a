//! The commands about executions that RVWMO allows and no run of rounds shows: `execution` prints one, and `fences` looks for the fences that
//! a guest program lacks.
#![tactic(auto)]

mod executing;
mod fences;
mod finds;
mod keeping;
mod makers;
mod places;
mod repeating;
mod searches;
mod status;
mod telling;

pub use executing::execution_command;
pub use fences::fences_command;
pub use finds::FenceFinds;
pub use keeping::keep;
pub use makers::{WeakExecuter, WeakExecutions};
pub use searches::FenceSearches;
