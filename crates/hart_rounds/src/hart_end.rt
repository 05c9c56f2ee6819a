ghost use Rattle.std.specs.Prelude.{◌≡◌, ◌<◌, Some, is_some, length, slice_get, true};
ghost use Rattle.hart_rounds.specs.Ends.{end_at_rest};

use crate::start::RoundStart;
use hart_step::Hart;
use std::alloc::Global;
use store_buffer::StoreBuffer;
use trace::Log;

/// What the round of one hart left.
pub struct HartEnd {
    /// The hart after its round.
    pub hart: Hart,
    /// The stores that it did.
    pub buffer: StoreBuffer,
    /// Its accesses in program order, or none where they were only counted.
    pub log: Log,
    /// How many accesses there were.
    pub accesses: u64,
    /// Whether its next instruction is for the serial phase.
    pub waits: bool,
}

// By hand, so that a proof has one step for it wherever one is dropped, in this crate and above.
impl Drop for HartEnd {
    fn drop(self) {
        let HartEnd {
            hart: _,
            buffer,
            log,
            accesses: _,
            waits: _,
        } = self;
        drop(buffer);
        drop(log);
    }
}

impl HartEnd {
    /// What a round leaves that does nothing: the hart alone.
    pub fn at_rest(alloc: Global, hart: Hart) -> HartEnd
        ensures { result ≡ end_at_rest hart }
    {
        HartEnd {
            hart,
            buffer: StoreBuffer::new(alloc),
            log: Log::of(Vec::new(alloc)),
            accesses: 0,
            waits: false,
        }
    }

    /// Whether it is what the round of a hart left that has stopped, and whose round does nothing.
    #[inline(always)]
    pub(crate) fn is_at_rest(&self) -> bool
        ensures stopped { result ≡ true → is_some self.now.hart.stop ≡ true }
        ensures rests { result ≡ true → self.now ≡ end_at_rest self.now.hart }
    {
        self.hart.stop.is_some()
            && self.accesses == 0
            && !self.waits
            && self.log.len() == 0
            && self.buffer.is_empty()
    }

    /// Takes the hart that a round begins with. One that has stopped is here already.
    #[inline(always)]
    pub(crate) fn begin(&mut self, number: usize, start: &RoundStart<'_>)
        requires number { number < length start.now.harts }
        requires stays { is_some self.old.hart.stop ≡ true →
            slice_get start.now.harts number ≡ Some self.old.hart }
        ensures { slice_get start.now.harts number ≡ Some self.new.hart }
    {
        if self.hart.stop.is_none() {
            self.hart = start.harts()[number];
        }
    }

    /// Lets go of all but the hart.
    pub(crate) fn rest(&mut self, alloc: Global)
        ensures { self.new ≡ end_at_rest self.old.hart }
    {
        if !self.buffer.is_empty() {
            self.buffer = StoreBuffer::new(alloc);
        }
        if self.log.len() > 0 {
            self.log = Log::of(Vec::new(alloc));
        }
        self.accesses = 0;
        self.waits = false;
    }
}
