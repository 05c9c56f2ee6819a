//! The hunter: a guest is run under the plans of a family, and the endings that they lead to are told as a table. A run that never ends is
//! found while it is done: the machine is kept at a few places, and compared with them.
#![tactic(auto)]

mod comparing;
mod error;
mod finding;
mod going;
mod guest;
mod hunting;
mod laws;
mod looking;
mod run_endings;
mod settings;
mod settling;
mod shrinking;

pub use error::HuntError;
pub use finding::run_or_loop;
pub use guest::{ending_of_stop, stops_of};
pub use hunting::{all_end_well, hunt, is_one_exit, tabulate_hunt};
pub use laws::round_runs_never_end;
pub use plan_hunt::{HuntObserver, ShrinkObserver, UnobservedHunt, UnobservedShrink};
pub use run_endings::find_run_endings;
pub use settings::{HuntSettings, check_guest, check_hunt, check_ranges};
pub use shrinking::shrink;
