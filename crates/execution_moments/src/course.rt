ghost use Rattle.std.specs.Prelude.{◌≡◌, ◌<◌, IfSome, length};
ghost use Rattle.execution_moments.specs.Shown.{hart_at, is_of, moment_at, next_of, previous_of, index_at, view_at};

use execution_views::{Moment, moment_of};
use hart_step::Hart;
use memory_order::Order;
use round_schedule::Event;

/// A moment of a hart: before one of its instructions, or where it has stopped.
#[derive(Clone, Copy)]
pub struct HartMoment {
    /// The number of the hart.
    pub number: u8,
    /// The index of the instruction in the list of those of all harts; `None` where the hart has stopped.
    pub index: Option<usize>,
    /// The hart.
    pub hart: Hart,
}

/// The moments of an execution. Time goes from 0, before the first one, up to their number, behind the last one.
#[derive(Drop)]
pub struct Course {
    /// Those of the instructions by their indexes, and then those of the harts that have stopped.
    pub moments: Vec<HartMoment>,
    /// Their numbers in this list, in the order of time.
    pub sequence: Vec<usize>,
    /// The harts at the end.
    pub ends: Vec<Hart>,
}

impl Course {
    /// The moment at a time; none behind the last one.
    pub fn moment_at(&self, time: usize) -> Option<HartMoment>
        ensures { result ≡ moment_at self.now time }
    {
        match self.sequence.get(time) {
            Some(number) => self.moments.get(*number).copied(),
            None => None,
        }
    }

    /// Whether the moment at a time is one of this hart.
    pub fn is_of(&self, number: u8, time: usize) -> bool
        ensures { result ≡ is_of self.now number time }
    {
        match self.moment_at(time) {
            Some(moment) => moment.number == number,
            None => false,
        }
    }

    /// The time of a hart's next moment from a time on; none where it has no further one.
    pub fn next_of(&self, time: usize, number: u8) -> Option<usize>
        ensures next { result ≡ next_of self.now time number }
        ensures within { IfSome result (λ next. next < length self.now.sequence.items) }
    {
        if time >= self.sequence.len() {
            return None;
        }
        for later in time..self.sequence.len() {
            if self.is_of(number, later) {
                return Some(later);
            }
        }
        None
    }

    /// The time of a hart's last moment before a time; none where it has no earlier one.
    pub fn previous_of(&self, time: usize, number: u8) -> Option<usize>
        ensures previous { result ≡ previous_of self.now time number }
        ensures before { IfSome result (λ previous. previous < time) }
    {
        let mut earlier = time;
        while earlier > 0 {
            earlier -= 1;
            if self.is_of(number, earlier) {
                return Some(earlier);
            }
        }
        None
    }

    /// A hart at a time: as it is before its next instruction or where it has stopped, and else as it ends. None where there is no such
    /// hart.
    pub fn hart_at(&self, time: usize, number: u8) -> Option<Hart>
        ensures { result ≡ hart_at self.now time number }
    {
        match self.next_of(time, number) {
            Some(next) => match self.moment_at(next) {
                Some(moment) => Some(moment.hart),
                None => None,
            },
            None => self.ends.get(usize::from(number)).copied(),
        }
    }

    /// The index of the instruction that a hart does next at a time; none where it does no further one.
    fn index_at(&self, time: usize, number: u8) -> Option<usize>
        ensures { result ≡ index_at self.now time number }
    {
        match self.next_of(time, number) {
            Some(next) => match self.moment_at(next) {
                Some(moment) => moment.index,
                None => None,
            },
            None => None,
        }
    }

    /// From where a hart sees memory at a time: from its next memory operation, as a load that stands there in the order of memory reads
    /// it. A hart that does no further operation sees it from the order's end.
    pub fn view_at(&self, events: &[Event], order: &Order, time: usize, number: u8) -> Moment
        ensures { result ≡ view_at self.now events.now order.now.0.items time number }
    {
        match self.index_at(time, number) {
            Some(index) => moment_of(events, order, index),
            None => Moment {
                hart: number,
                index: events.len(),
                position: order.0.len(),
            },
        }
    }
}
