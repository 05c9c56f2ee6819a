//! The moments of an execution that RVWMO allows, in an order of time: what each hart is there, memory as it sees it, and what a debugger is
//! told next or was told before: that a hart is at a moment, or what watchpoints tell of an access.
#![tactic(auto)]

mod check;
mod course;
mod following;
mod laws;
mod past;
mod point;
mod sequence;
mod stopped;
mod telling;
mod times;
mod told;

pub use check::check_moments;
pub use course::{Course, HartMoment};
pub use laws::{harts_respect_program_order, loads_read_what_is_shown};
pub use past::Past;
pub use point::{TimePoint, TimeSide};
pub use told::Told;
