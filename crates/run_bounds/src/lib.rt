//! The memory operations of a hart's run: the one that comes next, and what the run keeps of the past ones, which is for each of the thirteen
//! rules of preserved program order a lower bound of the time of a later one, by kinds, by registers and by bytes.
#![tactic(auto)]

mod carried;
mod kinds;
mod operation;
mod touched;

pub use carried::{CarriedTimes, NONE_CARRIED, allows_dependencies, carried_after, operand_bound};
pub use kinds::{KindTimes, NO_KINDS, allows_kind, kinds_after};
pub use operation::{Kind, Operation, operation_of};
pub use touched::{OwnByte, TouchedByte, byte_known, set_byte};
