//! A recorded run that a debugger looks at, where its session stands, and what is told next.
#![tactic(auto)]

mod asking;
mod debugged;
mod pace;
mod resuming;
mod session;

pub use asking::{all_told, find, only_of, watched_of};
pub use debugged::Debugged;
pub use pace::{MOST_STEPS, steps_in_round, stretch_of};
pub use resuming::{end_of, tell};
pub use session::{Session, Standing, start_of};
