//! The finder of missing fences: a guest's executions are made by their numbers, and of those that fail for want of a fence the gaps
//! are told. The checker of executions says that RVWMO allows each execution that is shown, and an ordinary run beside it.
#![tactic(auto)]

mod confirming;
mod faults;
mod finding;
mod findings;
mod guest;
mod looking;
mod observing;
mod settings;
mod sites;
mod usual;

pub use fence_trials::{Compared, Executer, FenceGuest, TimedExecuter};
pub use finding::{FenceFinder, FoundFences};
pub use observing::{FenceObserver, UnobservedSearch};
pub use settings::FenceSettings;
