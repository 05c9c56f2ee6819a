//! The instructions of RV64IMA: their encodings, read from 32-bit words.
#![tactic(auto)]

mod atomic;
mod decoding;
mod disjoint;
mod instruction;
mod operands;
mod ordering;
mod register;
mod serial;

pub use atomic::{Atomic, AtomicOperation, AtomicWidth};
pub use decoding::decode;
pub use disjoint::no_word_meets_two_rows;
pub use instruction::Instr;
pub use ordering::{AcquireRelease, FenceMode, FenceSet};
pub use register::Reg;
pub use serial::is_serial;
