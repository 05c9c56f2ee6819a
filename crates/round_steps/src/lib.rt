//! Walks over the rounds of a run, to where something is told: forwards and backwards.
#![tactic(auto)]

mod noting;
mod part;
mod point_search;
mod points;
mod round;
mod stops_alone;
mod told;
mod turn;

pub use moments::Asked;
pub use point_search::nearest;
pub use points::Telling;
pub use told::Told;
pub use watching::{WatchKind, Watchpoint};
