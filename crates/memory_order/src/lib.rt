//! The global memory order of a run's trace, the memory model RVWMO that it meets with the syntactic dependencies of its rules (manual,
//! section 14.1), and a checker of orders, with what it keeps on its way for checkers of narrower rules.
#![tactic(auto)]

mod check;
mod checking;
mod laws;
mod operation;
mod order;
mod registers;
mod wider_rule;

pub use check::check_order;
pub use checking::{
    Bounds, Sources, all_sources, bounds_at, event_at, is_plain_store, is_release, last_reserved,
    listed, loads_are_right, may_store, of_hart, orders_loads, orders_stores, own_stores, paired,
    pairs_are_atomic, position_of, positions, raise_bytes, raise_to, raised, set_of_hart,
    source_at,
};
pub use laws::{fewer_dependencies_are_met, orders_of_runs_meet_rvwmo};
pub use operation::{is_operation, is_operation_at};
pub use order::{Order, memory_order};
pub use registers::{Registers, used_registers};
pub use wider_rule::wider_rule_is_wider;
