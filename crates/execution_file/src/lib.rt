//! Executions in files: the one text of each, what is read of a text, what the harts of an execution did, as a file says it, and the turns
//! by which a file names an order of their memory operations.
#![tactic(auto)]

mod bytes;
mod cause;
mod file;
mod lists;
mod naming;
mod numbers;
mod operations;
mod parts;
mod reading;
mod words;
mod writing;

pub use cause::{Cause, ReadError, Refusal};
pub use file::{ExecutionFile, HartDeeds, MOST_STEPS, Turn};
pub use naming::{Named, order_named, turns_of};
pub use parts::{are_said, deeds, number_shown};
pub use reading::{one_execution, read_execution};
pub use writing::write_execution;
