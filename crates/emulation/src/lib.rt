//! Runs of guest programs that are asked for by settings, and what is written of them.
#![tactic(auto)]

mod emulation;
mod ordering;
mod reporting;
mod run_end;
mod showing;
mod tracing;

pub use emulation::emulate;
pub use ordering::order_run;
pub use reporting::{Report, report_on};
pub use run_end::RunEnd;
pub use showing::{ShownState, report_run, show_run};
pub use tracing::trace_run;
