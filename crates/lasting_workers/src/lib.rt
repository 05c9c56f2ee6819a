//! Workers that last from round to round of a run: each keeps its seat at the run's book, and sleeps at a board until the start of the
//! next round is posted. And how many of them the next round is worth.
#![tactic(auto)]

mod board;
mod borrowed_start;
mod posted_start;
mod postings;
mod round_work;

pub use board::Board;
pub use borrowed_start::BorrowedStart;
pub use posted_start::PostedStart;
pub use round_work::{RoundWork, instructions_done};
