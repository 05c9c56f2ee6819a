//! What a run leaves: its trace, which has the events in the order of the rounds and the bytes that memory opened with.
#![tactic(auto)]

mod access_slice;
mod brief_access;
mod brief_group;
mod brief_log;
mod brief_slice;
mod chunk;
mod event_list;
mod event_slice;
mod events;
mod form;
mod laws;
mod log;
mod opening;
mod rising;
mod trace;

pub use events::Events;
pub use laws::runs_leave_traces;
pub use log::Log;
pub use round_schedule::{Access, Event, Phase};
pub use trace::Trace;
