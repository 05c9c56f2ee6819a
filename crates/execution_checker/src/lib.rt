//! A checker of executions: whether RVWMO allows what a script leads an image to.
#![tactic(auto)]

mod check;
mod laws;
mod verdict;

pub use check::{check_execution, follow, judge};
pub use execution::{Execution, ScriptedStep, StepFault};
pub use laws::orders_of_runs_are_allowed;
pub use refusal_reasons::{OrderRule, Refusal, RefusalLine};
pub use verdict::{Reason, Verdict};
