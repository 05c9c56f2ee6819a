//! Every move of a hart's run against a list of stores: the states behind its next instruction, and what has to be known where it ends. Checked
//! against the definitions of all endings, which the contracts cite.
#![tactic(auto)]

mod calling;
mod coming;
mod computing;
mod ending;
mod loading;
mod moving;
mod offering;
mod operating;
mod repeating;
mod standing;
mod stopping;
mod storing;

pub use coming::{Coming, coming_of};
pub use computing::hart_of;
pub use ending::{is_open_call, is_settled, knows_registers};
pub use moving::{Reached, instruction_at, operation_moves, other_moves};
pub use offering::offers;
pub use operating::{add_successor, are_registers};
pub use standing::may_stand;
pub use stopping::stop_of;
