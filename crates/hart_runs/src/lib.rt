//! All runs of one hart, alone, against a list of the stores to shared bytes in the order of global memory.
//!
//! A load takes the least time at which its bytes have the sources that it chooses, since all that RVWMO asks of it are lower bounds; or
//! it is done later, behind the store that comes next. What is read then isn't known, nor is what is computed from it, and no store that
//! can come next hangs on it.
//!
//! It is for searches. What it finds isn't proved of executions.
#![tactic(auto)]

mod calling;
mod computing;
mod exchanging;
mod listing;
mod loading;
mod storing;
mod walking;

pub use walking::{runs_against, waiting_runs};
