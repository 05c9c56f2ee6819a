//! The trace of a run as JSON in the format of Chrome's trace events, which viewers of traces open: a track for each hart, a slice
//! for each event, slices of rounds and serial phases, and a flow from each store to each event that read a byte of it.
#![tactic(auto)]

mod flows;
mod located;
mod slices;
mod writers;
mod writing;

pub use located::located_line;
pub use writing::write_trace_events;
