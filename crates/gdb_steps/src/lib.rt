//! Where a recorded run stands after steps of one hart.
#![tactic(auto)]

mod finding;
mod stepping;
mod stepping_alone;
mod stepping_in;

pub use stepping::step;
pub use stepping_alone::{step_alone, step_back};
pub use stepping_in::step_in;
