use crate::failure::Failure;
use crate::fence_kind::TriedFence;
use crate::gap::NamedGap;
use crate::moved::Moved;
use crate::tally::Tally;

/// The execution that shows a fault: that of a number, with just the departures that it needs.
#[derive(Clone, Copy, PartialEq, Eq)]
pub struct Shown {
    pub number: u32,
    /// How many operations depart from the order of their harts' programs, as the search counts them.
    pub departures: u32,
    /// How many instructions the harts do.
    pub steps: u64,
    /// How many memory operations they do.
    pub operations: u64,
}

/// A missing fence, and an execution that shows it.
#[derive(Drop)]
pub struct Missing {
    pub gap: NamedGap,
    /// The weakest fence with which none of the executions fails there any more.
    pub fence: TriedFence,
    /// The numbers whose executions fail for want of this fence, and of none that is told before it.
    pub numbers: Tally,
    /// The operation that is out of order across the gap in the execution that is shown.
    pub moved: Moved,
    /// How that execution fails.
    pub failure: Failure,
    pub shown: Shown,
}
