//! The round of one hart: what it starts from, how it is done, and what it leaves.
#![tactic(auto)]

mod hart_end;
mod log_form;
mod rounds;
mod start;

pub use hart_end::HartEnd;
pub use log_form::LogForm;
pub use rounds::{LONG, round_from, round_in_place};
pub use start::RoundStart;
