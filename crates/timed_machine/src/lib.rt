//! A machine with times: harts one after another over one memory that keeps its history, where loads may read old, stores may
//! come late, and one store may come early, as far as RVWMO lets them.
//!
//! It is for searches. What it does need not be trusted, since the checker of executions says of each execution whether RVWMO
//! allows it.
#![tactic(auto)]

mod assumed;
mod common;
mod holding;
mod loading;
mod machine;
mod promise;
mod stepping;
mod storing;
mod timed_hart;

pub use assumed::AssumedFence;
pub use machine::{Bounds, TimedMachine};
