use execution_scripts::ExecutionFile;
use fence_table::NamedGap;

/// Whoever looks at a search for missing fences, also from its workers. What it answers makes no difference to what is found of the numbers
/// that are done.
pub trait FenceObserver {
    /// Looks at how many executions are done, and at how many of them fail by what moved in them, and says how many are to be in the
    /// next block: at least one is, and at most 4,096 are.
    fn before_block(&self, done: u32, failing: usize) -> u32;

    /// Whether there is time for one more number. A search asks only where it has only so much.
    fn has_time(&self) -> bool;

    /// Learns that a worker has tried one more number.
    fn after_number(&self);

    /// Learns that an execution, be it as if a fence stood somewhere, has done so many rounds more, while it is under way.
    fn after_rounds(&self, rounds: u32);

    /// Learns of a gap at which a fence would forbid the execution of a number, which fails. None is told twice, and none that is accepted.
    /// Where executions are kept it has that one too, if RVWMO allows it.
    fn found(&self, gap: &NamedGap, number: u32, execution: Option<&ExecutionFile>);
}

/// Nobody looks, and there is time.
#[derive(Clone, Copy)]
pub struct UnobservedSearch;

impl FenceObserver for UnobservedSearch {
    fn before_block(&self, _done: u32, _failing: usize) -> u32 {
        u32::MAX
    }

    fn has_time(&self) -> bool {
        true
    }

    fn after_number(&self) {}

    fn after_rounds(&self, _rounds: u32) {}

    fn found(&self, _gap: &NamedGap, _number: u32, _execution: Option<&ExecutionFile>) {}
}
