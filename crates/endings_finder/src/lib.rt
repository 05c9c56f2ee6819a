//! The finder of all endings of a guest program: a search proposes endings, each with an execution, and the judge of endings says which of
//! them RVWMO allows.
#![tactic(auto)]

mod confirming;
mod fences;
mod finding;
mod guest;
mod judging;
mod others;
mod program;
mod proposing;
mod searching;
mod settings;

pub use finding::{FoundEndings, find_endings};
pub use searching::{EndingsObserver, UnobservedEndings};
pub use settings::EndingsSettings;
