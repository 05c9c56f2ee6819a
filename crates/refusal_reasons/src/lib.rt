//! Why RVWMO refuses an order of the memory operations of instructions, found by a search.
#![tactic(auto)]

mod find;
mod line;
mod listing;
mod pairs;
mod refusal;
mod torn;
mod values;

pub use find::find_refusal;
pub use line::RefusalLine;
pub use order_rules::OrderRule;
pub use refusal::Refusal;
