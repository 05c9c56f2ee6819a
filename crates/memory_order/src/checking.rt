//! The parts of the checker of orders.

mod atomic;
mod bounds;
mod harts;
mod kinds;
mod latest;
mod noting;
mod own;
mod pairs;
mod program;
mod ranks;
mod source_bounds;
mod sources;
mod values;

pub use atomic::pairs_are_atomic;
pub use bounds::{Bounds, bounds_at, raise_bytes, raise_to};
pub use harts::{of_hart, raised, set_of_hart};
pub use kinds::{
    event_at, is_plain_store, is_release, listed, orders_loads, orders_stores, position_of,
};
pub use noting::may_store;
pub use own::own_stores;
pub use pairs::{last_reserved, paired};
pub(crate) use program::respects_but_overlap;
pub use ranks::positions;
pub use source_bounds::{Sources, source_at};
pub use sources::all_sources;
pub use values::loads_are_right;
