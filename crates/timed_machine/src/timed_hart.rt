ghost use Rattle.std.specs.Prelude.{◌<◌, IfSome};

use access_times::{HeldStore, MOST_HELD, Views};
use hart_step::Hart;
use pages::OutOfMemory;
use rv64_decode::{FenceMode, FenceSet};
use std::alloc::Global;

/// A hart of the machine.
#[derive(Drop)]
pub(crate) struct TimedHart {
    pub(crate) state: Hart,
    pub(crate) timing: Timing,
}

/// The times of a hart, and the stores that it holds.
#[derive(Drop)]
pub(crate) struct Timing {
    /// The number of the hart.
    pub(crate) number: u8,
    pub(crate) views: Views,
    pub(crate) held: [Option<HeldStore>; MOST_HELD],
    /// How many memory operations it has done.
    pub(crate) operations: u64,
    /// How many steps all harts had taken when it began to wait until a store that it holds is in memory.
    pub(crate) waits_since: Option<u64>,
    ghost few: { number < 64 },
}

impl TimedHart {
    /// A hart that has done nothing, in a memory of so many pages.
    pub(crate) fn new(
        alloc: Global,
        state: Hart,
        number: u8,
        pages: u32,
    ) -> Result<TimedHart, OutOfMemory>
        requires { number < 64 }
    {
        let views = Views::new(alloc, pages)?;
        let timing = Timing {
            number,
            views,
            held: [None; MOST_HELD],
            operations: 0,
            waits_since: None,
        };
        Ok(TimedHart { state, timing })
    }
}

impl Timing {
    /// The hart passes a fence.
    pub(crate) fn pass_fence(&mut self, before: FenceSet, after: FenceSet, mode: FenceMode) {
        self.views.fence(before, after, mode);
        for slot in 0..MOST_HELD {
            if let Some(held) = self.held[slot] {
                self.held[slot] = Some(held.behind_fence(before, after, mode));
            }
        }
    }

    /// A slot where a store can be held, if there is one.
    pub(crate) fn free_slot(&self) -> Option<usize>
        ensures { IfSome result (λ slot. slot < MOST_HELD) }
    {
        for slot in 0..MOST_HELD {
            if self.held[slot].is_none() {
                return Some(slot);
            }
        }
        None
    }
}
