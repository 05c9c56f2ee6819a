//! An iterator over a list of events in chunks.

ghost use Rattle.std.specs.Prelude.{◌≡◌, ◌<◌, ◌++◌, [], All, length};
ghost use Rattle.std.specs.Iterator.{YieldsFirst, item_count};
ghost use Rattle.trace.specs.Chunks.{HasEvents, joined, slice_events};

use crate::chunk::Chunk;
use crate::event_slice::EventSlice;
use round_schedule::Event;
use std::marker::Model;

/// The events of a trace that are left to give, in the order of the trace.
#[derive(Drop)]
pub struct Events<'a> {
    /// Those of the chunk that is gone through; only at the end there are none.
    slice: EventSlice<'a>,
    chunks: &'a [Chunk],
    tail: &'a [Event],
}

impl<'a> Model for Events<'a> {
    ghost use Rattle.std.specs.Prelude.{◌≡◌, List, [], ◌++◌, All};
    ghost use Rattle.round_schedule.specs.declared.event.Event.{Event as EventOf};
    ghost use Rattle.trace.specs.Chunks.{HasEvents, joined, slice_events};

    ghost Value = { List EventOf };

    ghost view = { λ e. slice_events e.slice ++ (joined e.chunks.now ++ e.tail.now) };

    ghost invariant = { λ e. All HasEvents e.chunks.now ×
        (slice_events e.slice ≡ [] → joined e.chunks.now ++ e.tail.now ≡ []) };
}

impl<'a> Events<'a> {
    /// The events of these chunks, and then those of the tail.
    pub(crate) fn new(chunks: &'a [Chunk], tail: &'a [Event]) -> Events<'a>
        requires { All HasEvents chunks.now }
        ensures { result ≡ joined chunks.now ++ tail.now }
    {
        let mut slice = EventSlice::Events(&[]);
        let (mut chunks, mut tail) = (chunks, tail);
        open_chunk(&mut slice, &mut chunks, &mut tail);
        Events {
            slice,
            chunks,
            tail,
        }
    }

    /// The events of a slice, then those of these chunks, and then those of the tail.
    pub(crate) fn beginning(
        slice: EventSlice<'a>,
        chunks: &'a [Chunk],
        tail: &'a [Event],
    ) -> Events<'a>
        requires some { 0 < length (slice_events slice) }
        requires filled { All HasEvents chunks.now }
        ensures { result ≡ slice_events slice.entry ++ (joined chunks.now ++ tail.now) }
    {
        Events {
            slice,
            chunks,
            tail,
        }
    }
}

impl<'a> Iterator for Events<'a> {
    type Item = Event;

    ghost next_gives = { YieldsFirst (λ rest. rest) };

    ghost remaining = { item_count (λ rest. rest) };

    #[inline(always)]
    fn next(&mut self) -> Option<Event> {
        let event = self.slice.take_first()?;
        if self.slice.is_empty() {
            open_chunk(&mut self.slice, &mut self.chunks, &mut self.tail);
        }
        Some(event)
    }
}

/// Opens the next chunk, or the tail after the last one. It stands apart and answers nothing, so that `next` stays short.
#[cold]
#[inline(never)]
fn open_chunk<'a>(slice: &mut EventSlice<'a>, chunks: &mut &'a [Chunk], tail: &mut &'a [Event])
    requires { All HasEvents chunks.old.now }
    ensures same { slice_events slice.new ++ (joined chunks.new.now ++ tail.new.now) ≡
        joined chunks.old.now ++ tail.old.now }
    ensures filled { All HasEvents chunks.new.now }
    ensures some { slice_events slice.new ≡ [] → joined chunks.new.now ++ tail.new.now ≡ [] }
{
    match chunks.split_first() {
        Some((chunk, others)) => {
            *slice = chunk.slice();
            *chunks = others;
        }
        None => {
            *slice = EventSlice::Events(tail);
            *tail = &[];
        }
    }
}
