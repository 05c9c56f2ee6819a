//! A slice of a list of events: such as stand together in memory, lent.

ghost use Rattle.std.specs.Prelude.{◌≡◌, ◌<◌, ◌≤◌, ◌∷◌, ◌↔◌, [], drop, length, IfNone, IfSome, IsTrue};
ghost use Rattle.round_schedule.specs.Positions.{event};
ghost use Rattle.round_schedule.specs.Events.{event_of};
ghost use Rattle.trace.specs.Chunks.{slice_events};

use crate::access_slice::AccessSlice;
use round_schedule::{Access, Event, Phase};

/// Events of a list that stand together in memory.
#[derive(Drop)]
pub(crate) enum EventSlice<'a> {
    /// Events one by one.
    Events(&'a [Event]),
    /// The accesses of a hart in one phase of a round.
    Log(LogSlice<'a>),
}

/// The accesses of a hart in one phase of a round.
#[derive(Drop)]
pub(crate) struct LogSlice<'a> {
    pub(crate) round: u32,
    pub(crate) hart: u8,
    pub(crate) phase: Phase,
    pub(crate) accesses: AccessSlice<'a>,
}

impl<'a> EventSlice<'a> {
    /// The event at an index.
    pub(crate) fn get(&self, index: usize) -> Event
        requires { index < length (slice_events self.now) }
        ensures { result ≡ event (slice_events self.now) index }
    {
        match self {
            EventSlice::Events(events) => event_at(events, index),
            EventSlice::Log(log) => log.event_of(log.accesses.get(index)),
        }
    }

    /// The events from an index on.
    pub(crate) fn from(self, index: usize) -> EventSlice<'a>
        requires { index ≤ length (slice_events self) }
        ensures { slice_events result ≡ drop index (slice_events self.entry) }
    {
        match self {
            EventSlice::Events(events) => EventSlice::Events(&events[index..]),
            EventSlice::Log(log) => EventSlice::Log(LogSlice {
                round: log.round,
                hart: log.hart,
                phase: log.phase,
                accesses: log.accesses.from(index),
            }),
        }
    }

    /// Whether there are none.
    #[inline]
    pub(crate) fn is_empty(&self) -> bool
        ensures { IsTrue result ↔ (length (slice_events self.now) ≡ 0) }
    {
        match self {
            EventSlice::Events(events) => events.is_empty(),
            EventSlice::Log(log) => log.accesses.is_empty(),
        }
    }

    /// Takes the first event out.
    #[inline(always)]
    pub(crate) fn take_first(&mut self) -> Option<Event>
        ensures none { IfNone result ((slice_events self.old ≡ []) × (slice_events self.new ≡ [])) }
        ensures some { IfSome result (λ e. slice_events self.old ≡ e ∷ slice_events self.new) }
    {
        match self {
            EventSlice::Events(events) => {
                let (event, rest) = events.split_first()?;
                *events = rest;
                Some(*event)
            }
            EventSlice::Log(log) => {
                let access = log.accesses.take_first()?;
                Some(log.event_of(access))
            }
        }
    }
}

impl<'a> LogSlice<'a> {
    /// The event of an access.
    #[inline]
    fn event_of(&self, access: Access) -> Event
        ensures { result ≡ event_of self.now.round self.now.hart self.now.phase access }
    {
        Event {
            access,
            round: self.round,
            hart: self.hart,
            phase: self.phase,
        }
    }
}

/// The event at an index of a slice.
fn event_at(events: &[Event], index: usize) -> Event
    requires { index < length events.now }
    ensures { result ≡ event events.now index }
{
    events[index]
}
