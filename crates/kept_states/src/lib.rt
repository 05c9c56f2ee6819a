//! What a recording keeps of the states of a run, and whether a state is what was kept of it.
#![tactic(auto)]

mod keeping;

pub use keeping::{Seen, agrees, keep, seen_of};
