//! Recordings of runs: made, replayed, and asked about the past, and which accesses hit some ranges of memory.
#![tactic(auto)]

mod checkpoints;
mod counting;
mod locating;
mod opened;
mod past;
mod placing;
mod recorder;
mod replaying;
mod verdict;
mod watching;

pub use checkpoints::Replay;
pub use counting::count_at;
pub use locating::pcs_before;
pub use moments::Sight;
pub use opened::settings_of;
pub use past::{sight_at, state_at};
pub use placing::state_before;
pub use recorder::{record, record_observed, record_with};
pub use recording::{Cause, ReadError, Recording, migrate, read_recording, write_recording};
pub use replaying::{replay, replay_observed};
pub use round_schedule::Event as Hit;
pub use run_events::{Rounds, choose, pcs_of_run};
pub use verdict::Verdict;
pub use watching::{watch, watch_rounds};
