//! The commands that run a guest program and show the run: `draw`, which also draws executions of files, and `trace`.
#![tactic(auto)]

mod executions;
mod guests;
mod pictures;
mod ranges;
mod tracing;

pub use pictures::draw_command;
pub use ranges::access_ranges;
pub use tracing::trace_command;
