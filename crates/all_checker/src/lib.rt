//! A proved table of all endings of a guest under RVWMO: nodes are looked through, from where harts begin, by each store to shared bytes that may
//! come next. Each hart's runs are walked alone against a node's stores.
#![tactic(auto)]

mod finding;
mod guest;
mod looking;
mod mapping;
mod memory;
mod owning;
mod sighting;
mod taking;

pub use finding::{Bounds, Found, ListsObserver, Reason, find_all};
pub use guest::Guest;
pub use hart_ends::{HartEnd, TableEnding};
pub use run_places::{Omission, OwnDoubleword};
