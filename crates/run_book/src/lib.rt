//! The shared book of a run: which seat claimed which hart in which round, and the history of each round under a spin lock.
#![tactic(auto)]

mod book;
mod close;
mod entry;
mod gathered;
mod meet;
mod rule;
mod seat;
mod sitter;
mod slot;
mod ticket;
mod whole_round;

pub use book::RunBook;
pub use entry::Entry;
pub use gathered::Gathered;
pub use seat::Seat;
pub use ticket::Ticket;
