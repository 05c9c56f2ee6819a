//! Watchpoints: which moves of a round a debugger is told of, found from the round's events.
#![tactic(auto)]

mod bytes;
mod hits;
mod rivals;
mod saved;
mod told;
mod watchpoint;

pub use hits::{Hit, hits_in_round, told_alone, touches_some};
pub use saved::{Saved, save};
pub use watchpoint::{WatchKind, Watchpoint, Way};
