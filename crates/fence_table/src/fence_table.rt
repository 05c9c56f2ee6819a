use crate::missing::Missing;
use crate::tally::Tally;
use hunt_table::SeenRange;

/// What a search for missing fences found among the executions of `count` numbers of a seed, from `first` on.
pub struct FenceTable {
    pub seed: u64,
    pub first: u32,
    pub count: u32,
    /// The bytes that are looked at. The seen bytes of a failure are those of all ranges, one after the other.
    pub ranges: Vec<SeenRange>,
    /// Numbers that fail without any departure too: their faults are no matter of fences.
    pub ordinary: Tally,
    /// Numbers that fail with departures alone, but whose executions are interleavings all the same: no fence would forbid them.
    pub unnamed: Tally,
    /// Numbers whose executions were cut off while harts ran, and of which nothing else is known.
    pub running: Tally,
    /// Numbers that fail for want of a fence at a gap that was to be left out.
    pub accepted: Tally,
    /// Beginning with the fence for want of which the most numbers fail.
    pub missing: Vec<Missing>,
}

// By hand, so that a proof has one step for it wherever one is dropped, in this crate and above.
impl Drop for FenceTable {
    fn drop(self) {
        let FenceTable {
            seed: _,
            first: _,
            count: _,
            ranges,
            ordinary: _,
            unnamed: _,
            running: _,
            accepted: _,
            missing,
        } = self;
        drop(ranges);
        drop(missing);
    }
}
