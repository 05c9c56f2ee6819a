//! What a search for missing fences tells: the gaps where one is missing, each with an execution that shows it, and their text.
#![tactic(auto)]

mod accept_error;
mod accepted;
mod failure;
mod fence_kind;
mod fence_table;
mod gap;
mod missing;
mod moved;
mod site;
mod tally;
mod writing;

pub use accept_error::AcceptError;
pub use accepted::Accepted;
pub use failure::Failure;
pub use fence_kind::{FenceKind, Side, TriedFence};
pub use fence_table::FenceTable;
pub use gap::NamedGap;
pub use missing::{Missing, Shown};
pub use moved::{Direction, Moved, Operation, Passed};
pub use site::{Site, SiteName};
pub use tally::Tally;
pub use writing::write_fences;
