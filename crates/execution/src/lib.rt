//! Executions of an image: its harts do their instructions one after another, each on numbers that it is given.
#![tactic(auto)]

mod execution;
mod laws;
mod noting;
mod progress;
mod reading;
mod step;
mod step_fault;

pub use execution::Execution;
pub use laws::runs_are_executions;
pub use step::ScriptedStep;
pub use step_fault::StepFault;
