use hunter::{HuntObserver, ShrinkObserver};
use machine::Observer;

/// Tells on standard error how far a command is, in a line that is written over as it goes on.
pub trait ProgressLine: Observer + HuntObserver + ShrinkObserver + Drop {
    /// Learns how many rounds or plans there are in all.
    fn expect(&mut self, all: u32);

    /// Ends the line, where one was written.
    fn end(&self);

    /// Looks at how many executions fail for want of a fence, and says how many numbers are to be in the next block of a search.
    fn before_numbers(&self, failing: usize) -> u32;

    /// Learns that a worker has tried one more number of a search for fences.
    fn after_number(&self);

    /// Learns that an execution of such a search has done so many rounds more.
    fn after_execution(&self, rounds: u32);

    /// Looks at a search for all endings, and says whether there is time to go on.
    fn look(&mut self, nodes: u64, stores: u64, endings: u64) -> bool;
}
