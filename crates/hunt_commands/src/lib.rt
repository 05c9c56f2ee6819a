//! The commands that run a guest program by the plans of a family: `hunt` and `shrink`; `merge`, which joins tables of hunts; and `plan`,
//! which prints such a plan.
#![tactic(auto)]

mod finds;
mod hunting;
mod merging;
mod neighbours;
mod planning;
mod refusing;
mod repeating;
mod settings;
mod shrinking;
mod status;
mod table_files;
mod tabling;
mod weak_hunts;

pub use finds::Finds;
pub use hunting::hunt_command;
pub use merging::merge_command;
pub use planning::plan_command;
pub use refusing::refused_for;
pub use repeating::{line_of, quoted, tell_bounds, weak_line_of};
pub use settings::{named_in, program_settings, settings_of, tell_decimals};
pub use shrinking::shrink_command;
pub use status::hunt_status;
pub use table_files::{TableFile, read_table_of};
pub use weak_hunts::WeakHunts;
