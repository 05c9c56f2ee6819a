//! A run of so many rounds, which is looked at at each of its points: what is shown there of each hart, and memory as it sees it.
#![tactic(auto)]

mod own_part;
mod refused;
mod showing;
mod timeline;

pub use own_part::{OwnPart, part_at};
pub use refused::of_memory;
pub use showing::shown_at_side;
pub use timeline::Timeline;
