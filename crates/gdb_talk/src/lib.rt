//! What a debugger's sessions have in common, whatever they look at: what is asked for by what was said, breakpoints and watchpoints that come and
//! go, what is told of a hart at a moment, and what is said where memory is wanting.
#![tactic(auto)]

mod asking;
mod look;
mod saying;
mod stops;
mod told;
mod watchpoints;

pub use asking::{asked_by, has_left};
pub use look::Look;
pub use saying::{Response, refuse_each, refuse_lost, say};
pub use stops::Stops;
pub use told::{
    done_if, hart_of_thread, is_stopped, note_of, register_of, registers_of, stop_reply_of, why,
};
