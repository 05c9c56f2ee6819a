//! Where fences would forbid an execution: what its departures moved, and past what; and whether it is an interleaving all the same.
//!
//! It is for searches: nothing of it need be trusted.
#![tactic(auto)]

mod naming;
mod sequential;

pub use naming::{Gap, Move, Moves, Overtaken, Sides, moves_of};
pub use sequential::is_sequential;
