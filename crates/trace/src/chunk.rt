//! The finished chunks of a list of events.

ghost use Rattle.std.specs.Prelude.{◌≡◌, ◌-◌, ◌<◌, ◌≤◌, ◌++◌, All, IfOk, drop, length};
ghost use Rattle.round_schedule.specs.Positions.{event};
ghost use Rattle.trace.specs.Chunks.{AreChunks, HasEvents, events_in, joined, slice_events};

use crate::event_slice::{EventSlice, LogSlice};
use crate::log::Log;
use pages::OutOfMemory;
use round_schedule::{Event, Phase};
use std::sync::Arc;

/// Events of a list that no longer change, so that its copies share them.
#[derive(Drop)]
pub(crate) struct Chunk {
    /// How many events of the list stand before them.
    pub(crate) start: usize,
    pub(crate) batch: Batch,
}

/// The events of a chunk.
#[derive(Drop)]
pub(crate) enum Batch {
    /// Events one by one.
    Events(Arc<Vec<Event>>),
    /// The accesses of a hart in one phase of a round.
    Log {
        round: u32,
        hart: u8,
        phase: Phase,
        log: Log,
    },
}

impl Chunk {
    /// The events.
    pub(crate) fn slice(&self) -> EventSlice<'_>
        ensures { slice_events result ≡ events_in self.now }
    {
        match &self.batch {
            Batch::Events(events) => EventSlice::Events(events.as_slice()),
            Batch::Log {
                round,
                hart,
                phase,
                log,
            } => EventSlice::Log(LogSlice {
                round: *round,
                hart: *hart,
                phase: *phase,
                accesses: log.accesses(),
            }),
        }
    }

    /// Another owner of the events.
    pub(crate) fn copy(&self) -> Result<Chunk, OutOfMemory>
        ensures start { IfOk result (λ p. p.start ≡ self.now.start) }
        ensures events { IfOk result (λ p. events_in p ≡ events_in self.now) }
    {
        let batch = match &self.batch {
            Batch::Events(events) => Batch::Events(events.clone()?),
            Batch::Log {
                round,
                hart,
                phase,
                log,
            } => Batch::Log {
                round: *round,
                hart: *hart,
                phase: *phase,
                log: log.copy()?,
            },
        };
        Ok(Chunk {
            start: self.start,
            batch,
        })
    }
}

/// The chunk that has the event at an index of the list, and those after it.
pub(crate) fn chunks_with(chunks: &[Chunk], index: usize) -> (&Chunk, &[Chunk])
    requires chunks { AreChunks chunks.now }
    requires within { index < length (joined chunks.now) }
    ensures start { result.0.now.start ≤ index }
    ensures within { index - result.0.now.start < length (events_in result.0.now) }
    ensures event { event (events_in result.0.now) (index - result.0.now.start) ≡
        event (joined chunks.now) index }
    ensures rest { drop (index - result.0.now.start) (events_in result.0.now) ++
        joined result.1.now ≡ drop index (joined chunks.now) }
    ensures filled { All HasEvents result.1.now }
{
    let begun = chunks.partition_point(|chunk| chunk.start <= index);
    (&chunks[begun - 1], &chunks[begun..])
}
