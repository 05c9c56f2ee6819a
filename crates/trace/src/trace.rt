ghost use Rattle.std.specs.Prelude.{◌≡◌, ℕ, ◌-◌, ◌+◌, ◌<◌, ◌≤◌, ◌^◌, ◌↔◌, [], ◌∷◌, ◌++◌, drop, length, map, slice_index, true, false, MatchOption, IfOk, IfSome, IsSome, OnOk};
ghost use Rattle.pages.specs.Memory.{in_range};
ghost use Rattle.round_schedule.specs.Events.{events_of};
ghost use Rattle.round_schedule.specs.Positions.{event};
ghost use Rattle.trace.specs.LentLogs.{accesses_lent};
ghost use Rattle.trace.specs.Traced.{HasForm, IsTrace, StandsAbove, laid, opening_at};

use crate::access_slice::AccessSlice;
use crate::event_list::EventList;
use crate::events::Events;
use crate::form::all_have_forms;
use crate::log::Log;
use crate::opening::Opening;
use crate::rising::places_rise;
use pages::{OutOfMemory, Piece};
use round_schedule::{Access, Event, Phase};
use std::alloc::Global;
use std::marker::Model;

/// The events of a run, in the order of the rounds, and the bytes that memory opened with.
///
/// Each event has the form of its kind, and a hart's places rise through the list.
pub struct Trace {
    opening: Opening,
    events: EventList,
}

// By hand, so that the proof of a function that drops a trace has one step for it.
impl Drop for Trace {
    fn drop(self) {
        let Trace { opening, events } = self;
        drop(opening);
        drop(events);
    }
}

impl Model for Trace {
    ghost use Rattle.std.specs.Prelude.{map};
    ghost use Rattle.trace.specs.Pieces.{pieces_in};
    ghost use Rattle.trace.specs.Traced.{IsTrace, Traced, laid};

    ghost Value = { Traced };

    ghost view = { λ t. record {
      opening = map laid (pieces_in t.opening);
      events = t.events.events;
      room = t.events.room;
      logs = t.events.logs;
    } };

    ghost invariant = { λ t. IsTrace t.events.events };
}

impl Trace {
    /// The trace of these events, over memory that opened with these pieces: a byte is that of the first piece that holds
    /// it, and else 0.
    ///
    /// `None`, and both lists are dropped, where a hart's places do not rise through the list, or where an event has not
    /// the form of its kind. This takes no memory.
    pub fn of(opening: Vec<Piece>, events: Vec<Event>) -> Option<Trace>
        ensures accepted { IsSome result ↔ IsTrace events.items }
        ensures events { IfSome result (λ t. t.events ≡ events.items) }
        ensures opening { IfSome result (λ t. t.opening ≡ map laid opening.items) }
    {
        if all_have_forms(&events) && places_rise(&events) {
            Some(Trace {
                opening: Opening::Own(opening),
                events: EventList::of(events),
            })
        } else {
            None
        }
    }

    /// The trace that has no event yet, over memory that opened with these pieces. This takes no memory.
    pub fn new(alloc: Global, opening: Vec<Piece>) -> Trace
        ensures events { result.events ≡ [] }
        ensures opening { result.opening ≡ map laid opening.items }
    {
        Trace {
            opening: Opening::Own(opening),
            events: EventList::new(alloc),
        }
    }

    /// Makes room for so many further events.
    pub fn reserve(&mut self, n: usize) -> Result<(), OutOfMemory>
        ensures events { self.new.events ≡ self.old.events }
        ensures opening { self.new.opening ≡ self.old.opening }
        ensures ok { OnOk result (n ≤ self.new.room) }
        ensures logs { self.old.logs ≤ self.new.logs }
    {
        self.opening.share()?;
        self.events.reserve(n)
    }

    /// Makes room for so many logs, which have so many accesses together.
    ///
    /// # Errors
    ///
    /// `OutOfMemory`, also where the events so far and these accesses are more than 2^62 together. The events stay.
    pub fn reserve_logs(&mut self, n: usize, accesses: usize) -> Result<(), OutOfMemory>
        ensures events { self.new.events ≡ self.old.events }
        ensures opening { self.new.opening ≡ self.old.opening }
        ensures ok { OnOk result (n ≤ self.new.logs) }
        ensures few { OnOk result (length self.new.events + accesses ≤ 2 ^ 62) }
    {
        self.events.reserve_logs(n, accesses)
    }

    /// Adds an event at the end, where room was made. It takes no memory.
    pub fn push(&mut self, event: Event)
        requires room { 0 < self.old.room }
        requires formed { HasForm event }
        requires above { StandsAbove self.old.events event }
        ensures events { self.new.events ≡ self.old.events ++ event ∷ [] }
        ensures opening { self.new.opening ≡ self.old.opening }
        ensures room { self.old.room ≤ self.new.room + 1 }
    {
        self.events.push(event);
    }

    /// Adds the accesses of a hart in one phase of a round, where room was made. It takes no memory.
    pub fn extend(&mut self, round: u32, hart: u8, phase: Phase, accesses: &[Access])
        requires room { length accesses.now ≤ self.old.room }
        requires sound { IsTrace (self.old.events ++ events_of round hart phase accesses.now) }
        ensures events { self.new.events ≡
            self.old.events ++ events_of round hart phase accesses.now }
        ensures opening { self.new.opening ≡ self.old.opening }
        ensures room { self.old.room ≤ self.new.room + length accesses.now }
    {
        self.push_all(round, hart, phase, AccessSlice::Whole(accesses));
    }

    /// Adds the accesses of a log, of a hart in one phase of a round, where room for them as events was made. It takes no
    /// memory.
    pub fn copy_log(&mut self, round: u32, hart: u8, phase: Phase, log: &Log)
        requires room { length log.now ≤ self.old.room }
        requires sound { IsTrace (self.old.events ++ events_of round hart phase log.now) }
        ensures events { self.new.events ≡ self.old.events ++ events_of round hart phase log.now }
        ensures opening { self.new.opening ≡ self.old.opening }
        ensures room { self.old.room ≤ self.new.room + length log.now }
    {
        self.push_all(round, hart, phase, log.accesses());
    }

    /// Adds accesses of a hart in one phase of a round, event by event, where room for them was made.
    fn push_all(&mut self, round: u32, hart: u8, phase: Phase, accesses: AccessSlice<'_>)
        requires room { length (accesses_lent accesses) ≤ self.old.room }
        requires sound { IsTrace (self.old.events ++
            events_of round hart phase (accesses_lent accesses)) }
        ensures events { self.new.events ≡
            self.old.events ++ events_of round hart phase (accesses_lent accesses.entry) }
        ensures opening { self.new.opening ≡ self.old.opening }
        ensures room { self.old.room ≤ self.new.room + length (accesses_lent accesses.entry) }
    {
        let mut left = accesses;
        while let Some(access) = left.take_first() {
            self.push(Event {
                access,
                round,
                hart,
                phase,
            });
        }
    }

    /// Adds the accesses of a hart in one phase of a round, where room for a log was made. They stay where they are, so that
    /// it takes no memory. Copies of the trace share a log that was shared, and copy another.
    pub fn adopt(&mut self, round: u32, hart: u8, phase: Phase, log: Log)
        requires logs { 0 < self.old.logs }
        requires few { length self.old.events + length log ≤ 2 ^ 62 }
        requires sound { IsTrace (self.old.events ++ events_of round hart phase log) }
        ensures events { self.new.events ≡ self.old.events ++ events_of round hart phase log }
        ensures opening { self.new.opening ≡ self.old.opening }
        ensures room { self.old.room ≤ self.new.room }
        ensures logs { self.old.logs ≤ self.new.logs + 1 }
    {
        self.events.adopt(round, hart, phase, log);
    }

    /// How many events there are so far.
    pub fn len(&self) -> usize
        ensures len { result ≡ length self.now.events }
        ensures sound { IsTrace self.now.events }
    {
        self.events.len()
    }

    /// The event at an index, counted from 0.
    pub fn event(&self, index: usize) -> Event
        requires { index < length self.now.events }
        ensures { result ≡ event self.now.events index }
    {
        self.events.get(index)
    }

    /// The events so far, in order.
    pub fn events(&self) -> Events<'_>
        ensures { result ≡ self.now.events }
    {
        self.events.iter()
    }

    /// The events from an index on, in order.
    pub fn events_from(&self, index: usize) -> Events<'_>
        ensures { result ≡ drop index self.now.events }
    {
        self.events.from(index)
    }

    /// The events so far, as one vector.
    pub fn to_vec(&self, alloc: Global) -> Result<Vec<Event>, OutOfMemory>
        ensures events { IfOk result (λ v. v.items ≡ self.now.events) }
        ensures sound { IfOk result (λ v. IsTrace v.items) }
    {
        self.events.to_vec(alloc)
    }

    /// The byte that memory opened with at an address.
    pub fn opening_byte(&self, address: u64) -> u8
        ensures { result ≡ opening_at self.now.opening address }
    {
        self.opening.byte(address)
    }

    /// An equal trace. Once `reserve` was called, it shares with this one the opening pieces, the logs that were shared before
    /// they were adopted, and all other events but those added since and a few thousand before them.
    pub fn copy(&self, alloc: Global) -> Result<Trace, OutOfMemory>
        ensures events { IfOk result (λ t. t.events ≡ self.now.events) }
        ensures opening { IfOk result (λ t. t.opening ≡ self.now.opening) }
    {
        Ok(Trace {
            opening: self.opening.copy(alloc)?,
            events: self.events.copy(alloc)?,
        })
    }
}
