//! Weak hunts: a guest's executions are made by their numbers, the endings that they lead to are told as a table, and the checker of
//! executions says that RVWMO allows each of these endings.
#![tactic(auto)]

mod bounds;
mod confirming;
mod error;
mod executing;
mod guest;
mod hunting;
mod looking;
mod settings;
mod tabulating;
mod writing;

pub use error::WeakHuntError;
pub use hunting::hunt_weakly;
pub use looking::seen_of;
pub use settings::WeakHunt;
pub use writing::weak_execution;
