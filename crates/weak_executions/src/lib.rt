//! Executions of a guest program by number, in which loads read old and stores come late or early, and what RVWMO says of them.
#![tactic(auto)]

mod checking;
mod guest;
mod opening;

pub use checking::{Finding, check, check_by, is_allowed};
pub use execution_checker::Verdict;
pub use guest::WeakGuest;
pub use opening::Opening;
