ghost use Rattle.std.specs.Prelude.{◌≡◌, IfOk};
ghost use Rattle.round_schedule.specs.Positions.{event};
ghost use Rattle.execution_moments.specs.Looked.{bytes_shown, end_of, looked_at};

use crate::course::Course;
use byte_sources::no_event;
use execution::Execution;
use execution_views::bytes_at;
use memory_order::Order;
use pages::OutOfMemory;
use round_schedule::Event;
use std::alloc::Global;
use trace::Trace;

/// An execution that RVWMO allows, and what a debugger is told of it.
pub struct Past {
    /// The execution, at its end.
    pub execution: Execution,
    /// Its moments.
    pub course: Course,
    /// The order of its memory operations.
    pub order: Order,
    /// The bytes that memory opened with.
    pub opening: Trace,
    /// How many harts there are, 1 to 64.
    pub harts: u8,
    /// How many bytes memory has.
    pub size: u32,
}

// By hand, so that a proof has one step for it wherever one is dropped, in this crate and above.
impl Drop for Past {
    fn drop(self) {
        let Past {
            execution,
            course,
            order,
            opening,
            harts: _,
            size: _,
        } = self;
        drop(execution);
        drop(course);
        drop(order);
        drop(opening);
    }
}

impl Past {
    /// How many moments there are.
    pub fn end(&self) -> usize
        ensures { result ≡ end_of (looked_at self.now) }
    {
        self.course.sequence.len()
    }

    /// The event at an index; past the end of the list a fence that orders nothing.
    pub(crate) fn event_at(&self, index: usize) -> Event
        ensures { result ≡ event (looked_at self.now).events index }
    {
        match self.execution.events().get(index) {
            Some(event) => *event,
            None => no_event(),
        }
    }

    /// At most so many bytes of memory from an address on, as a hart sees them at a time: fewer where memory ends before.
    ///
    /// # Errors
    ///
    /// `OutOfMemory` alone.
    pub fn bytes_at(
        &self,
        alloc: Global,
        time: usize,
        hart: u8,
        address: u64,
        count: u64,
    ) -> Result<Vec<u8>, OutOfMemory>
        ensures { IfOk result (λ v. v.items
            ≡ bytes_shown (looked_at self.now) time hart address count) }
    {
        if address >= u64::from(self.size) {
            return Ok(Vec::new(alloc));
        }
        let count = count.min(u64::from(self.size) - address);
        let events = self.execution.events();
        let view = self.course.view_at(events, &self.order, time, hart);
        bytes_at(
            alloc,
            &self.opening,
            events,
            &self.order,
            &view,
            address as u32,
            count as u32,
        )
    }
}
