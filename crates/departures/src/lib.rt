//! Departures from the order of the harts' programs: which operations of an execution depart, by draws or by a list, and what it did.
//!
//! It is for searches. What it does need not be trusted, since the checker of executions says of each execution whether RVWMO
//! allows it.
#![tactic(auto)]

mod departure;
mod draws;
mod early;
mod record;
mod sharing;

pub use departure::{Departure, Listed, Way};
pub use draws::{Draws, Stream};
pub use early::{EarlyStores, do_meet};
pub use record::{Deed, Placing, Record};
pub use sharing::{SharedBytes, groups_of};
