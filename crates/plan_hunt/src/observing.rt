use crate::row::Row;

/// Whoever looks on at a hunt, also from its workers. What is answered makes no difference to the table of the plans that are done.
pub trait HuntObserver {
    /// Looks at how many plans are done, and at the table of their endings, and says how many are to be in the next block: at least
    /// one is, and at most 4,096 are.
    fn before_block(&self, done: u32, rows: &[Row]) -> u32;

    /// Whether there is time for one more plan. A hunt asks only where it has only so much.
    fn has_time(&self) -> bool;

    /// Learns that a worker has run one more plan.
    fn after_plan(&self);

    /// Learns that a run has done so many rounds more, while it is under way.
    fn after_rounds(&self, rounds: u32);
}

/// Nobody looks on, and there is time.
#[derive(Clone, Copy)]
pub struct UnobservedHunt;

impl HuntObserver for UnobservedHunt {
    fn before_block(&self, _done: u32, _rows: &[Row]) -> u32 {
        u32::MAX
    }

    fn has_time(&self) -> bool {
        true
    }

    fn after_plan(&self) {}

    fn after_rounds(&self, _rounds: u32) {}
}
