//! Every move of a hart's run against a list of stores to nobody's own bytes: what a hart does to its own has no place in the list. And whether an
//! instruction keeps to the bytes that are the hart's own or nobody's. Checked against the definitions of private bytes, which the contracts cite.
#![tactic(auto)]

mod keeping;
mod moving;
mod owned;
mod recalling;
mod straying;
mod timing;

pub use hart_moves::Reached;
pub use moving::moves;
pub use owned::{OwnDoubleword, is_own};
pub use straying::strays_to;
