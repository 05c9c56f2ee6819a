//! The serial phase of a round: the turns of the waiting harts, in hart order, on memory itself; runs that are back where they were after an
//! earlier round, and so never end; and whether the hart of a serial turn asks for the number of the round, on which that depends.
//!
//! The laws are the contracts of functions that do nothing.
#![tactic(auto)]

mod asking_turn;
mod console;
mod instruction;
mod laws;
mod log;
mod opening;
mod phase;
mod plain;
mod plain_run;
mod serving;
mod shared;
mod target;

pub use asking_turn::take_asking_turn;
pub use console::Console;
pub use instruction::serve;
pub use laws::{
    alike_is_decided, asking_by_reservations, counts_are_forgotten, earlier_goes_round,
    going_round_comes_back, later_comes_back, runs_come_back, runs_go_round,
};
pub use log::SerialLog;
pub use phase::{serial, take_turn};
pub use shared::{SerialRound, SharedState, Turn};
