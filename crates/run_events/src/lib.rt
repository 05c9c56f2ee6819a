//! The events of a run that hit some ranges of memory, and the pcs of events: for each the pc of its hart before the event's instruction.
#![tactic(auto)]

mod choosing;
mod finding;
mod locating;
mod parts;
mod rounds;
mod sought;
mod stretches;
mod turns;
mod watcher;
mod watching;

pub use choosing::choose;
pub use locating::pcs_of_run;
pub use rounds::Rounds;
pub use sought::Sought;
pub use watching::hits_of_run;
