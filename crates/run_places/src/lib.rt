//! The places of a hart's runs against a list of stores to nobody's own bytes, walked move by move: the stores that may come next, and the
//! hart's ends.
#![tactic(auto)]

mod ahead;
mod bounds;
mod constants;
mod covering;
mod following;
mod marking;
mod owing;
mod place;
mod reaching;
mod walking;

pub use ahead::stands_for;
pub use constants::{is_open_call, stays_constant};
pub use covering::Places;
pub use following::{Against, Omission, strays};
pub use hart_ends::HartEnd;
pub use hart_states::{ListedStore, OpeningMemory};
pub use owing::is_lost;
pub use own_moves::OwnDoubleword;
pub use place::{Place, first_place, is_paid, place_behind};
pub use walking::{HartWalk, Walk, add_all, begun, walk_from};
