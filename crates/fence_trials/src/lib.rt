//! What comes of the executions of a guest, each made by its number: loads read old and stores come late or early in it, and where it fails
//! it is made with as few departures as that needs, which names the gaps where nothing orders two accesses.
//!
//! The checker of executions says of each execution that is found whether RVWMO allows it, so nothing but what is counted as well need be
//! trusted.
#![tactic(auto)]

mod attempt;
mod departing;
mod executer;
mod failing;
mod guest;
mod looking;
mod observing;
mod ordinary;
mod shortening;
mod spot;
mod state;
mod trying;
mod working;

pub use departing::Departing;
pub use executer::{Came, Executer, TimedExecuter};
pub use failing::Failing;
pub use guest::{FenceGuest, Reach, Span};
pub use observing::TrialObserver;
pub use ordinary::{Compared, Ordinary, ordinary_runs};
pub use spot::Spot;
pub use trying::{Found, Trial, try_departures, try_number};
pub use working::{Tried, try_block};
