//! The lines of a report, as text on its way to a sink: those of events, harts, memory and output. Other texts are made of the same
//! lines.
#![tactic(auto)]

mod events;
mod harts;
mod line;
mod rows;
mod tail;

pub use events::event_line;
pub use harts::{add_stop, hart_lines};
pub use line::Line;
pub use rows::{count_line, output_row, page_lines};
pub use tail::Tail;
