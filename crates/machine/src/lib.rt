//! The machine: a run of a guest program, round by round.
#![tactic(auto)]

mod copying;
mod machine;
mod observing;
mod preparing;
mod preparing_untraced;
mod running;
mod untraced;
mod untraced_running;
mod visited_runs;
mod visiting;
mod walks;

pub use machine::Machine;
pub use observing::{Observed, Observer, Unobserved};
pub use parallel_phase::{Gate, Open};
pub use preparing::prepare;
pub use preparing_untraced::prepare_untraced;
pub use round_planner::{Format, GuestFiles, Settings, load};
pub use running::RoundNote;
pub use trace::Trace;
pub use untraced::{MachineFields, UntracedMachine};
pub use visiting::{Next, UntilStopped, Visitor};
