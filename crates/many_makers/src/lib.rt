//! Something is made for each of many numbers, by several workers at the same time.
#![tactic(auto)]

mod making;
mod slots;

pub use making::make_each;
