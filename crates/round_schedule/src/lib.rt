//! What a run is: accesses and events, its bounds, and the schedule of a round over any set of instructions; and the reservations of LR and SC,
//! a map from harts to the bytes that each has reserved.
//!
//! The definitions stand in `specs/`, and speak of any set of instructions; the laws on them are the contracts of `laws`.
#![tactic(auto)]

mod access;
mod bounds;
mod event;
mod laws;
mod overlap;
mod reservations;
mod span;

pub use access::{Access, Stepped};
pub use bounds::{MOST_HARTS, MOST_WORKERS};
pub use event::{Event, Phase};
pub use laws::{
    commit_is_last_store, commits_by_reservations, events_pass, hart_round_is_longest,
    held_is_by_last_reserve, past_ends_in_round, places_of_runs_rise, rounds_by_reservations,
    rounds_preserve, runs_by_reservations, serial_phase_by_reservations, serial_turn_is_longest,
    stopped_runs_pass, traces_are_round_traces,
};
pub use reservations::Reservations;
pub use span::Span;
