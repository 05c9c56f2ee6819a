//! The serial turns of one round of a guest, done to be looked at: a hart within its turn, the harts along all turns, and whether one of
//! them asks for the round's number.
#![tactic(auto)]

mod asked_turn;
mod hart_in_round;
mod number_asked;
mod turn_harts;
mod visiting;

pub use hart_in_round::sight_in_round;
pub use number_asked::asks_in_round;
pub use turn_harts::{turns_end_the_past, visit_turns};
pub use visiting::TurnVisitor;
