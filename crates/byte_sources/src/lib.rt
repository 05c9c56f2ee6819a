//! Where each byte that an event of a trace reads comes from, found in the trace alone; and what follows from it: which stores nobody
//! read, and which loads only do the same once more.
#![tactic(auto)]

mod access;
mod laws;
mod mark;
mod marks;
mod phases;
mod repeating;
mod source;

pub use access::{event_at, is_in_range, no_event, touches, writes};
pub use laws::{arrows_meet_axiom, repeats_read_from_the_same, sources_meet_axiom};
pub use mark::Mark;
pub use marks::mark_of;
pub use phases::{is_same_phase, is_same_turn, is_serial};
pub use repeating::is_repeated;
pub use source::{has_index, has_opening, sees, sources};
