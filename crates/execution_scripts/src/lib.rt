//! Executions of files: from a file to the script and the order that the checker judges.
#![tactic(auto)]

mod calls;
mod checking;
mod ending;
mod fault;
mod following;
mod misreading;
mod opening;
mod said;
mod way;

pub use calls::{Taken, add_call, call_number, forget_plain, taken_at};
pub use checking::{Checked, Finding, check_file};
pub use execution_checker::Verdict;
pub use execution_file::{
    Cause, ExecutionFile, HartDeeds, ReadError, Refusal, Turn, read_execution, write_execution,
};
pub use execution_views::{
    Before, HartStep, Moment, Sights, bytes_at, moment_of, positions_sought,
};
pub use fault::{Fault, Halt, Misfit};
pub use following::Follower;
pub use opening::open_execution;
pub use said::{Said, order_said};
