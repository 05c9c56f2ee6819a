//! The report of a run: the text of harts, memory, output and events, and that of the order of its memory operations, put into a sink.
#![tactic(auto)]

mod block;
mod blocks;
mod cut;
mod desk;
mod entries;
mod formatting;
mod order;
mod piece;
mod putting;
mod run_state;
mod shown;
mod state;
mod writer;

pub use entries::{write_event, write_hart};
pub use order::write_order;
pub use run_state::RunState;
pub use shown::{write_summary, write_untraced};
pub use state::{write_state, write_state_on};
pub use writer::{put_line, put_long};
