//! The parallel phase of a round: 1 to 16 workers do the rounds of the harts, each on the memory of the round's start. They share a
//! book: which seat claimed which hart, and one history of what was put.
#![tactic(auto)]

mod beside;
mod claimed_round;
mod gate;
mod gathering;
mod places;
mod round_entry;
mod rounds;
mod run_starts;
mod working;

pub use claimed_round::HartRound;
pub use gate::{Gate, Open};
pub use gathering::gather;
pub use hart_rounds::RoundStart;
pub use places::place_ends;
pub use rounds::hart_round;
pub use run_starts::RunStarts;
pub use working::take_part;
