//! When memory operations can be: times of registers, of fences and of accesses, the stores that harts hold, a store
//! that comes early, memory as it was, and memory as it is now, on which single instructions are done as in a serial phase.
//!
//! A time is a number of stores in memory. What has a time stands behind the store of that number in the global memory order. So
//! the rules of RVWMO on preserved program order (manual, section 14.1) are bounds on times.
//!
//! It is for searches. What it does need not be trusted, since the checker of executions says of each execution whether RVWMO
//! allows it.
#![tactic(auto)]

mod doubleword;
mod early;
mod held;
mod history;
mod memory;
mod operation;
mod paged_times;
mod serving;
mod views;

pub use doubleword::{Bytes, shift_of};
pub use early::{Early, Promise, PutStore, Stage};
pub use held::{HeldStore, MOST_HELD};
pub use history::{History, Maker, Sight};
pub use memory::Memory;
pub use operation::{Kind, Operation, operation_of};
pub use views::Views;
