//! What the words of a guest program say beforehand: which registers are live at each, and which loads can be done early behind one.
//!
//! It is for searches. What it says isn't proved of the program's runs.
#![tactic(auto)]

mod control_flow;
mod early_loads;
mod guest_code;
mod live_registers;
mod liveness;

pub use early_loads::{EarlyLoads, KnownEarlyLoads};
pub use guest_code::GuestCode;
pub use live_registers::LiveRegisters;
