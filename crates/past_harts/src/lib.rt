//! Points of a run, and what its harts are and do from there on within the next round: one of them and memory as it sees it, all of them
//! along the serial turns, whether one asks for the round's number, and the events of rounds, noted in a trace that is lent.
#![tactic(auto)]

mod asking;
mod moment;
mod noting;
mod number_asked;
mod place;
mod point;
mod run_code;
mod turn_harts;

pub use asking::{PastHarts, hart_after, sight_after};
pub use guest_turns::{TurnVisitor, turns_end_the_past};
pub use moment::{Moment, phase_number};
pub use noting::run_noting;
pub use number_asked::asks_number;
pub use place::Place;
pub use point::{Point, Side};
pub use run_code::code_of_run;
pub use turn_harts::{harts_in_turns, visit_turns};
