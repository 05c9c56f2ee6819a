//! Concrete states of one hart's run against a list of stores: where a run begins, what a load reads of the list at a time, and the state behind a
//! move. Checked against the definitions of all endings, which the contracts cite.
#![tactic(auto)]

mod choice;
mod following;
mod listed_store;
mod opening_memory;
mod reading;
mod registers;
mod run_state;
mod touching;

pub use choice::Choice;
pub use following::{Successor, follow};
pub use listed_store::ListedStore;
pub use opening_memory::OpeningMemory;
pub use reading::{Reading, read_at, span_known, store_at};
pub use registers::{answered, filled, known};
pub use run_state::{RunState, is_sized, start};
