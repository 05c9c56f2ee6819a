//! The endings of a guest's runs under many plans: which there are, how often each comes, the first plan that leads there, and a smaller one
//! that does, found by single steps.
#![tactic(auto)]

mod adding;
mod block;
mod changing;
mod draft;
mod ending;
mod extent;
mod hart_ending;
mod joining;
mod observing;
mod plan_runs;
mod round_count;
mod row;
mod runs;
mod shrink_observing;
mod shrinking;
mod size;
mod step;
mod tabulating;
mod tally;
mod task;

pub use adding::index_of;
pub use ending::Ending;
pub use extent::{Extent, Until};
pub use hart_ending::{HartEnding, are_well};
pub use joining::join;
pub use observing::{HuntObserver, UnobservedHunt};
pub use plan_runs::PlanRuns;
pub use round_count::RoundCount;
pub use row::Row;
pub use runs::Runs;
pub use shrink_observing::{ShrinkObserver, UnobservedShrink};
pub use shrinking::shrink;
pub use step::{Change, Step, Way};
pub use tabulating::{block_size, next_block, tables_are_unique, tabulate};
pub use tally::Tally;
pub use task::Task;
