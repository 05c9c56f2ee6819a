//! The commands that run a guest program once: `run` and `order` print the run, `record` writes it to a file, and `migrate` a recording.
#![tactic(auto)]

mod looping;
mod making;
mod migrating;
mod ordering;
mod reading;
mod running;
mod saving;
mod shown;

pub use making::record_command;
pub use migrating::migrate_command;
pub use ordering::order_command;
pub use reading::read_recording_of;
pub use running::run_command;
