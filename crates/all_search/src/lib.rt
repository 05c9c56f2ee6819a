//! A search for all endings of a guest program under RVWMO: through all lists of stores to shared bytes in the order of global memory, each
//! hart alone against each.
//!
//! What it finds isn't proved: each ending comes with an execution, of which the checker of executions says whether RVWMO allows it; and
//! the nodes that it went through can be kept, for who wants to go through them again.
#![tactic(auto)]

mod ending;
mod endings;
mod executing;
mod node;
mod search;
mod searching;

pub use ending::{Ending, HartEnding};
pub use executing::FoundExecution;
pub use hart_walks::Guest;
pub use node::KeptNode;
pub use run_states::RunEnd;
pub use search::{Limits, Search};
pub use store_lists::{ListedStore, Omission};
