use crate::site::Site;
use round_schedule::Access;

/// A memory operation of a hart.
#[derive(Clone, Copy, PartialEq, Eq)]
pub struct Operation {
    pub hart: u32,
    /// What it did to memory.
    pub access: Access,
}

/// Where an operation stands in memory, beside its position in the program.
#[derive(Clone, Copy)]
pub enum Direction {
    /// It was done early: an operation that it would have seen, or that would have seen nothing of it, is behind it.
    Before,
    /// It came late: an operation that would have seen it, or that it would not have seen, is before it.
    Behind,
}

/// An operation of another hart that an operation moved past.
#[derive(Drop)]
pub struct Passed {
    pub operation: Operation,
    /// The instruction that did it.
    pub site: Site,
}

/// An operation that is out of its hart's order in memory.
#[derive(Drop)]
pub struct Moved {
    pub operation: Operation,
    /// The instruction that did it.
    pub site: Site,
    pub direction: Direction,
    /// What it moved past: of a load the first store to its bytes that it missed.
    pub passed: Passed,
}
