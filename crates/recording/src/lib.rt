//! Recordings of runs: the one spelling of each, and what is read of a text.
#![tactic(auto)]

mod cause;
mod fields;
mod lists;
mod migrating;
mod reading;
mod recording;
mod writing;

pub use cause::{Cause, ReadError};
pub use migrating::migrate;
pub use reading::{one_recording, read_recording};
pub use recording::{Checkpoint, HartSummary, Recording, RecordingFields, Summary};
pub use writing::write_recording;
