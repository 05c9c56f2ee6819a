//! Tables of all endings that a guest program can have: what they say, and their text.
#![tactic(auto)]

mod fence_need;
mod found_ending;
mod hart_end;
mod others;
mod table;
mod writing;

pub use fence_need::{FenceNeed, Need};
pub use found_ending::FoundEnding;
pub use hart_end::HartEnd;
pub use others::{Others, Why};
pub use table::EndingsTable;
pub use writing::write_endings;
