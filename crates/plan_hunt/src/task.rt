ghost use Rattle.std.specs.Prelude.{◌≡◌, ◌↔◌, IsTrue, true};
ghost use Rattle.plan_hunt.specs.Extents.{IsSought, start_of};

use crate::ending::Ending;
use crate::extent::Extent;
use crate::observing::HuntObserver;
use crate::row::Row;

/// What the workers of a block of plans do.
#[derive(Clone, Copy)]
pub struct Task<'a, O> {
    /// The first plan of the block.
    pub first: u32,
    /// How many plans it has.
    pub count: u32,
    /// How far the hunt goes.
    pub extent: Extent,
    /// The endings of the plans before the block.
    pub rows: &'a [Row],
    pub observer: &'a O,
}

impl<O: HuntObserver> Task<'_, O> {
    /// Whether there is no more time.
    pub fn is_out_of_time(&self) -> bool
        ensures { IsTrue result → self.now.extent.is_timed ≡ true }
    {
        self.extent.is_timed && !self.observer.has_time()
    }

    /// Whether the hunt is over with an ending of the block.
    pub fn is_last(&self, ending: &Ending) -> bool
        ensures { IsTrue result ↔
            IsSought self.now.extent.until (start_of self.now.rows.now ending.now) ending.now }
    {
        self.extent.until.is_over_with(self.rows, ending)
    }
}
