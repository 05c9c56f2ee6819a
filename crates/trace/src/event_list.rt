//! A list of events in chunks.

ghost use Rattle.std.specs.Prelude.{◌≡◌, ◌+◌, ◌<◌, ◌≤◌, ◌^◌, ◌++◌, [], ◌∷◌, IfOk, OnErr, OnOk, drop, length};
ghost use Rattle.round_schedule.specs.Events.{events_of};
ghost use Rattle.round_schedule.specs.Positions.{event};
ghost use Rattle.trace.specs.Chunks.{AreCounted, AreChunks, events_in, joined};

use crate::chunk::{Batch, Chunk, chunks_with};
use crate::events::Events;
use crate::log::Log;
use pages::OutOfMemory;
use round_schedule::{Event, Phase};
use std::alloc::Global;
use std::marker::Model;
use std::mem;
use std::sync::Arc;

/// From how many events on a tail is finished where more are to come.
const LONG_TAIL: usize = 4096;

/// How many events may be finished, so that the number of all is a `usize`.
const MOST_FINISHED: usize = 1 << 62;

/// A list of events: finished chunks, which its copies share, and the events after them.
#[derive(Drop)]
pub(crate) struct EventList {
    chunks: Vec<Chunk>,
    /// How many events the chunks have.
    finished: usize,
    tail: Vec<Event>,
}

impl Model for EventList {
    ghost use Rattle.std.specs.Prelude.{◌-◌, ◌++◌, vec_len, vec_capacity};
    ghost use Rattle.trace.specs.Chunks.{AreCounted, Listing, joined, logs_after};

    ghost Value = { Listing };

    ghost view = { λ l. record {
      events = joined l.chunks.items ++
          l.tail.items;
      room = vec_capacity l.tail -
          vec_len l.tail;
      logs = logs_after l.tail.items (vec_capacity l.chunks - vec_len l.chunks);
    } };

    ghost invariant = { λ l. AreCounted l.chunks.items l.finished };
}

impl EventList {
    /// The empty list. This takes no memory.
    pub(crate) fn new(alloc: Global) -> EventList
        ensures { result.events ≡ [] }
    {
        EventList::of(Vec::new(alloc))
    }

    /// The list of these events. This takes no memory.
    pub(crate) fn of(events: Vec<Event>) -> EventList
        ensures { result.events ≡ events.items }
    {
        EventList {
            chunks: Vec::new(*events.allocator()),
            finished: 0,
            tail: events,
        }
    }

    /// How many events there are.
    pub(crate) fn len(&self) -> usize
        ensures { result ≡ length self.now.events }
    {
        self.finished + self.tail.len()
    }

    /// The event at an index.
    pub(crate) fn get(&self, index: usize) -> Event
        requires { index < length self.now.events }
        ensures { result ≡ event self.now.events index }
    {
        if index < self.finished {
            let (chunk, _) = chunks_with(&self.chunks, index);
            chunk.slice().get(index - chunk.start)
        } else {
            self.tail[index - self.finished]
        }
    }

    /// The events in order.
    pub(crate) fn iter(&self) -> Events<'_>
        ensures { result ≡ self.now.events }
    {
        Events::new(&self.chunks, &self.tail)
    }

    /// The events from an index on, in order.
    pub(crate) fn from(&self, index: usize) -> Events<'_>
        ensures { result ≡ drop index self.now.events }
    {
        if index < self.finished {
            let (chunk, others) = chunks_with(&self.chunks, index);
            Events::beginning(chunk.slice().from(index - chunk.start), others, &self.tail)
        } else {
            let passed = (index - self.finished).min(self.tail.len());
            Events::new(&[], &self.tail[passed..])
        }
    }

    /// The events as one vector.
    pub(crate) fn to_vec(&self, alloc: Global) -> Result<Vec<Event>, OutOfMemory>
        ensures { IfOk result (λ v. v.items ≡ self.now.events) }
    {
        let mut events = Vec::with_capacity(alloc, self.len())?;
        for event in self.iter() {
            events.push(event)?;
        }
        Ok(events)
    }

    /// Makes room for so many further events. A tail that is long is finished first.
    pub(crate) fn reserve(&mut self, n: usize) -> Result<(), OutOfMemory>
        ensures events { self.new.events ≡ self.old.events }
        ensures ok { OnOk result (n ≤ self.new.room) }
        ensures logs { self.old.logs ≤ self.new.logs }
    {
        if self.tail.len() < LONG_TAIL {
            return Ok(self.tail.reserve(n)?);
        }
        finish(&mut self.chunks, &mut self.finished, &mut self.tail)?;
        // The room is for a chunk more, so that a tail short of a chunk still has it.
        Ok(self.tail.reserve(n.saturating_add(LONG_TAIL))?)
    }

    /// Makes room for so many logs, which have so many accesses together. What stands in the tail is finished first. This is
    /// refused also where the events so far and these accesses are more than 2^62 together.
    pub(crate) fn reserve_logs(&mut self, n: usize, accesses: usize) -> Result<(), OutOfMemory>
        ensures events { self.new.events ≡ self.old.events }
        ensures ok { OnOk result (n ≤ self.new.logs) }
        ensures few { OnOk result (length self.new.events + accesses ≤ 2 ^ 62) }
    {
        finish(&mut self.chunks, &mut self.finished, &mut self.tail)?;
        if accesses > MOST_FINISHED - self.finished {
            return Err(OutOfMemory);
        }
        Ok(self.chunks.reserve(n)?)
    }

    /// Adds an event at the end, where room was made. It takes no memory.
    pub(crate) fn push(&mut self, event: Event)
        requires { 0 < self.old.room }
        ensures events { self.new.events ≡ self.old.events ++ event ∷ [] }
        ensures room { self.old.room ≤ self.new.room + 1 }
    {
        self.tail.push_reserved(event);
    }

    /// Takes the accesses of a hart over, where room for a log was made. It takes no memory.
    pub(crate) fn adopt(&mut self, round: u32, hart: u8, phase: Phase, log: Log)
        requires logs { 0 < self.old.logs }
        requires few { length self.old.events + length log ≤ 2 ^ 62 }
        ensures events { self.new.events ≡ self.old.events ++ events_of round hart phase log }
        ensures room { self.old.room ≤ self.new.room }
        ensures logs { self.old.logs ≤ self.new.logs + 1 }
    {
        let count = log.len();
        if count == 0 {
            return;
        }
        self.chunks.push_reserved(Chunk {
            start: self.finished,
            batch: Batch::Log {
                round,
                hart,
                phase,
                log,
            },
        });
        self.finished += count;
    }

    /// An equal list, which shares the finished chunks.
    pub(crate) fn copy(&self, alloc: Global) -> Result<EventList, OutOfMemory>
        ensures { IfOk result (λ l. l.events ≡ self.now.events) }
    {
        Ok(EventList {
            chunks: copies_of(alloc, &self.chunks)?,
            finished: self.finished,
            tail: Vec::from_slice(alloc, &self.tail)?,
        })
    }
}

/// Moves what stands in the tail into a chunk, and leaves it empty. The events stay where they are.
fn finish(
    chunks: &mut Vec<Chunk>,
    finished: &mut usize,
    tail: &mut Vec<Event>,
) -> Result<(), OutOfMemory>
    requires { AreCounted chunks.old.items finished.old }
    ensures counted { AreCounted chunks.new.items finished.new }
    ensures events { joined chunks.new.items ++ tail.new.items ≡
        joined chunks.old.items ++ tail.old.items }
    ensures emptied { OnOk result (tail.new.items ≡ []) }
    ensures err { OnErr result (tail.new.items ≡ tail.old.items) }
    ensures unchanged { tail.old.items ≡ [] → (chunks.new ≡ chunks.old) × (tail.new ≡ tail.old) }
{
    let count = tail.len();
    if count == 0 {
        return Ok(());
    }
    if count > MOST_FINISHED - *finished {
        return Err(OutOfMemory);
    }
    chunks.reserve(1)?;
    let chunk = chunk_of(*finished, tail)?;
    chunks.push_reserved(chunk);
    *finished += count;
    Ok(())
}

/// Moves a tail into a chunk that starts at an index, and leaves an empty one.
fn chunk_of(start: usize, tail: &mut Vec<Event>) -> Result<Chunk, OutOfMemory>
    ensures start { IfOk result (λ p. p.start ≡ start) }
    ensures events { IfOk result (λ p. events_in p ≡ tail.old.items) }
    ensures emptied { OnOk result (tail.new.items ≡ []) }
    ensures err { OnErr result (tail.new.items ≡ tail.old.items) }
{
    let alloc = *tail.allocator();
    let mut events = mem::replace(tail, Vec::new(alloc));
    events.shrink_to_fit();
    match Arc::new(alloc, events) {
        Ok(events) => Ok(Chunk {
            start,
            batch: Batch::Events(events),
        }),
        Err(refused) => {
            *tail = refused.value;
            Err(OutOfMemory)
        }
    }
}

/// Further owners of chunks.
fn copies_of(alloc: Global, chunks: &[Chunk]) -> Result<Vec<Chunk>, OutOfMemory>
    requires { AreChunks chunks.now }
    ensures chunks { IfOk result (λ v. AreChunks v.items) }
    ensures events { IfOk result (λ v. joined v.items ≡ joined chunks.now) }
{
    let mut copies = Vec::with_capacity(alloc, chunks.len())?;
    for chunk in chunks {
        copies.push(chunk.copy()?)?;
    }
    Ok(copies)
}
