//! Lists of the stores to shared bytes, in the order of global memory, and what a search of them has in common: times, who touches which
//! bytes, and the memory operations that harts did.
//!
//! It is for searches. What it says isn't proved of executions.
#![tactic(auto)]

mod deeds;
mod listed_store;
mod reserved;
mod sharing;
mod time;

pub use deeds::{Deed, Deeds};
pub use listed_store::{
    ListedStore, StoreList, byte_of, has_place, number_with, opening_doubleword,
};
pub use reserved::Reserved;
pub use sharing::{Omission, Sharing, Touch, add_once};
pub use time::{ByteSources, LATER, Time};
