//! What is seen of an execution: the pc of each instruction, a hart before one of its steps, memory at a moment of the order as a hart
//! sees it, and the operations of the order that touch some bytes.
#![tactic(auto)]

mod laws;
mod moment;
mod sights;
mod touched;
mod walk;

pub use laws::loads_read_what_is_seen;
pub use moment::{Moment, bytes_at, moment_of};
pub use sights::{Before, HartStep, Sights};
pub use touched::positions_sought;
pub use walk::{Notes, take_noted};
