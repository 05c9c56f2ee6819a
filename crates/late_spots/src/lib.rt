//! How a hart's runs go on late from a place, by an operation behind a list of stores: whether those of its stores that are laid into memory are behind
//! them.
#![tactic(auto)]

mod branching;
mod going_on;
mod laws;
mod marking;
mod opening;
mod operating;
mod owing;
mod own_stores;
mod passing;

pub use going_on::{Onward, goes_on};
pub use laws::{late_runs_are_of_those_kept, settled_spots_are_late};
pub use marking::{mark_breakers, mark_late};
pub use passing::{stays_at, stores_from};
