//! One round of a guest: its parallel phase, its commit, its serial phase and its events.
#![tactic(auto)]

mod committing;
mod crew;
mod events;
mod guest;
mod half_round;
mod keeper;
mod lasting_crew;
mod opening;
mod parallel;
mod ready;
mod room;
mod round;
mod spare_lists;
mod tally;

pub use committing::commit;
pub use crew::{Crew, MANY_LINES};
pub use guest::GuestState;
pub use half_round::HalfRound;
pub use keeper::{EventKeeper, NoTrace};
pub use lasting_crew::LastingCrew;
pub use opening::opening_harts;
pub use room::make_turn_room;
pub use round::RoundCounts;
pub use tally::Tally;
