//! A checker of the orders of instructions: all the rules of RVWMO, the thirteen of preserved program order among them.
#![tactic(auto)]

mod annotated;
mod carried;
mod check;
mod coherent;
mod own;
mod paired_order;
mod violation;

pub use check::check_instructions;
pub use own::sources_of_loads;
pub use violation::first_violation;
