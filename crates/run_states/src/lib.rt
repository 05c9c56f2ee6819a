//! The states of a hart's runs against a list of stores: what it knows and when, the bounds that the rules of RVWMO give its next
//! operation, when one state can do all that another can, and what is still open behind it.
//!
//! A time is a number of stores of the list, which stands for the global memory order. All that the thirteen rules ask of an operation are
//! lower bounds for its time.
//!
//! It is for searches. What it says isn't proved of executions.
#![tactic(auto)]

mod bounds;
mod domination;
mod known_bytes;
mod open_keys;
mod run_state;
mod runs;

pub use bounds::{Bounds, by_pairing};
pub use domination::{Between, Looked, dominates};
pub use known_bytes::{KnownByte, KnownBytes, KnownDoubleword, OwnStore};
pub use open_keys::{Opened, key_of};
pub use run_state::{Course, RunState};
pub use runs::{Behind, EndedRun, Reach, RunEnd, Runs, Settled};
