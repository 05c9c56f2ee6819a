//! The commit of a round: the bytes that the harts buffered go to guest memory, in hart order.
#![tactic(auto)]

mod buffer;
mod buffered;
mod gate;
mod in_turn;
mod part;
mod shard;
mod sharing;

pub use buffered::Buffered;
pub use gate::{OpenShards, ShardGate};
pub use in_turn::commit;
pub use sharing::commit_on;
