//! A search for missing fences: executions are made by their numbers, and what those fail by that fail names the gaps at which fences forbid them.
#![tactic(auto)]

mod counting;
mod gathering;
mod searcher;
mod searching;
mod trials;

pub use counting::Counted;
pub use gathering::Weakness;
pub use searcher::Searcher;
pub use searching::{Search, search_fences};
pub use trials::Trials;
