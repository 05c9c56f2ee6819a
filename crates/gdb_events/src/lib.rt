//! What a debugger is answered about what a run does at a point: why it stands there, the access of its step, stores that are not
//! committed, reservations and output.
#![tactic(auto)]

mod buffer;
mod event;
mod held;
mod hit;
mod output;
mod reserved;
mod round_events;
mod saying;
mod stopping;

pub use buffer::answer_buffer;
pub use event::answer_event;
pub use hit::answer_hit;
pub use output::answer_output;
pub use reserved::answer_reservations;
pub use stopping::answer_stop;
