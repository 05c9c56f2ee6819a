//! The ends of harts, and the endings that they make together: one for each choice of an end of each hart.
#![tactic(auto)]

mod choices;
mod ends;
mod table;

pub use ends::{HartEnd, TableEnding};
pub use hart_step::Stop;
pub use table::{add_endings, has_end};
