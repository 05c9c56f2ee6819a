//! Which kind of fence is enough at a place: the kinds are tried, as if the fence stood there, a weaker one always before a stronger one.
#![tactic(auto)]

mod at_spot;
mod kinds;
mod mending;

pub use mending::Place;
