//! Plans of quotas: how many instructions each hart may do in each round, read from a text, or one of a family, which gives plan after plan
//! out of a seed; and what a run is asked for: its numbers, the image of its program and its plan.
#![tactic(auto)]

mod family;
mod guest_files;
mod loading;
mod plan;
mod reader;
mod settings;
mod split_mix;
mod text;

pub use family::{Family, plans_are_accepted, serial_budget};
pub use guest_files::GuestFiles;
pub use host_io::PlanError;
pub use loading::{load, read_plan};
pub use plan::{Plan, reading_is_unique, text_is_the_plans};
pub use settings::{Format, Settings, check_settings};
pub use split_mix::draw;
