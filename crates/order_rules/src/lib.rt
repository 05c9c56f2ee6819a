//! The rules of preserved program order (manual, section 14.1.3): which is the first that orders two operations of a hart.
#![tactic(auto)]

mod access;
mod asking;
mod behind;
mod between;
mod bytes;
mod candidates;
mod dependents;
mod depending;
mod rule;
mod sources;

pub use access::writes;
pub use asking::first_rule;
pub use candidates::find_candidates;
pub use rule::OrderRule;
pub use sources::source_of;
