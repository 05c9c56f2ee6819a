//! What each hart of a run is and sees within a round, the bytes of memory as one sees them, and the moves of a round one by one, in the
//! order of the trace; and walks over the moves of one hart: over all of a part, to where something is told, and to the instructions of
//! events, for their pcs.
#![tactic(auto)]

mod asked;
mod decoding;
mod hits;
mod laws;
mod pcs;
mod quiet;
mod sight;
mod stepping;

pub use asked::Asked;
pub use decoding::decoded;
pub use hits::{PartHits, hits_in_part};
pub use laws::{
    moves_leave_the_trace, moves_read_what_is_seen, sights_are_before_moves, sights_are_the_past,
    sights_end_in_the_schedule,
};
pub use pcs::add_pcs_in_part;
pub use quiet::quiet_lengths;
pub use sight::Sight;
