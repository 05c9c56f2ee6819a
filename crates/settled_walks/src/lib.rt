//! Walks of a hart's runs by what is known alone: the places from which they go on over what some stores of a list leave, which are laid into memory.
#![tactic(auto)]

mod ending;
mod keeping;
mod kept_times;
mod known_moves;
mod losing;
mod marking;
mod settling;
mod walking;
mod within;

pub use marking::mark_staying;
pub use settling::settle;
pub use walking::known_places;
