//! The judge of endings that a search proposes, each with an execution: what the execution ends in is an ending of the guest if RVWMO
//! allows it.
#![tactic(auto)]

mod ends;
mod following;
mod judging;
mod seeing;

pub use judging::{Proposed, judge_ending};
