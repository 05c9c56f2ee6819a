//! What the step at which a run stands reads or writes.

ghost use Rattle.std.specs.Prelude.{◌≡◌, ◌≤◌, ◌<◌, ◌+◌, ◌^◌, ◌++◌, IfOk, OnOk};
ghost use Rattle.std.specs.Option.{option_map};
ghost use Rattle.machine.specs.Machine.{Running};
ghost use Rattle.machine.specs.Untraced.{IsUntraced};
ghost use Rattle.past_harts.specs.Points.{is_behind_move};
ghost use Rattle.gdb_packets.specs.Writing.{packet_text};
ghost use Rattle.timelines.specs.Shown.{seen};
ghost use Rattle.gdb_events.specs.Events.{event_answer, event_packet, event_words, is_step, step_line, step_lines, step_place, step_text};
ghost use Rattle.round_schedule.specs.Bounds.{AreWorkers};

use crate::round_events::events_of_round;
use gdb_replies::{Reply, reply_text};
use pages::OutOfMemory;
use past_harts::Point;
use report_lines::{Line, Tail, event_line};
use round_schedule::Event;
use std::alloc::Global;
use std::sync::Wait;
use std::thread::Threads;
use timelines::Timeline;

/// What is said where the step reads and writes nothing.
const NO_ACCESS: &[u8] = b"no access\n";

/// What is said behind the last round.
const ENDS: &[u8] = b"the recording ends here\n";

/// Answers with the access of the step that is next at a point of the run, or that was last where the point is behind a move. It may
/// wait.
pub fn answer_event<R: Threads + Wait + Sync>(
    rt: &R,
    alloc: Global,
    timeline: &mut Timeline,
    point: Point,
    workers: u32,
) -> Result<Vec<u8>, OutOfMemory>
    requires within { point.moment.rounds ≤ timeline.old.rounds }
    requires workers { AreWorkers workers }
    requires rounds { point.moment.rounds + 1 < 2 ^ 32 }
    requires run { (m : Running) × IsUntraced m timeline.old.start }
    ensures stays { timeline.new ≡ timeline.old }
    ensures text { (m : Running) → IsUntraced m timeline.old.start → IfOk result (λ text. text.items
        ≡ packet_text (event_answer timeline.old.rounds m point
        (seen m point point.moment.place.hart))) }
{
    match event_words(rt, alloc, timeline, point, workers)? {
        Some(words) => reply_text(alloc, &Reply::Words(words.as_slice())),
        None => reply_text(alloc, &Reply::Missing),
    }
}

/// What tells the same on the debugger's terminal, beside an answer: a packet, and nothing where there is no such hart. It may wait.
pub(crate) fn event_packet<R: Threads + Wait + Sync>(
    rt: &R,
    alloc: Global,
    timeline: &mut Timeline,
    point: Point,
    workers: u32,
) -> Result<Vec<u8>, OutOfMemory>
    requires within { point.moment.rounds ≤ timeline.old.rounds }
    requires workers { AreWorkers workers }
    requires rounds { point.moment.rounds + 1 < 2 ^ 32 }
    requires run { (m : Running) × IsUntraced m timeline.old.start }
    ensures stays { timeline.new ≡ timeline.old }
    ensures text { (m : Running) → IsUntraced m timeline.old.start →
        IfOk result (λ text. text.items
        ≡ event_packet timeline.old.rounds m point (seen m point point.moment.place.hart)) }
{
    match event_words(rt, alloc, timeline, point, workers)? {
        Some(words) => reply_text(alloc, &Reply::Console(words.as_slice())),
        None => Ok(Vec::new(alloc)),
    }
}

/// What is said of that access; nothing where there is no such hart.
fn event_words<R: Threads + Wait + Sync>(
    rt: &R,
    alloc: Global,
    timeline: &mut Timeline,
    point: Point,
    workers: u32,
) -> Result<Option<Vec<u8>>, OutOfMemory>
    requires within { point.moment.rounds ≤ timeline.old.rounds }
    requires workers { AreWorkers workers }
    requires rounds { point.moment.rounds + 1 < 2 ^ 32 }
    requires run { (m : Running) × IsUntraced m timeline.old.start }
    ensures stays { timeline.new ≡ timeline.old }
    ensures words { (m : Running) → IsUntraced m timeline.old.start →
        IfOk result (λ w. option_map (λ v. v.items) w
        ≡ event_words timeline.old.rounds m point (seen m point point.moment.place.hart)) }
{
    let rounds = point.moment.rounds;
    if rounds >= timeline.rounds() {
        let ends = copied(alloc, ENDS)?;
        return Ok(Some(ends));
    }
    let Some(sight) = timeline.shown_at(rt, &point, point.moment.place.hart, workers)? else {
        return Ok(None);
    };
    let done = sight.hart().done;
    drop(sight);
    let events = events_of_round(rt, alloc, timeline, rounds, workers)?;
    let words = step_text(alloc, events.as_slice(), point, done)?;
    Ok(Some(words))
}

/// The access of a point's step, by the events of the round and by how many instructions the hart has done.
fn step_text(
    alloc: Global,
    events: &[Event],
    point: Point,
    done: u64,
) -> Result<Vec<u8>, OutOfMemory>
    ensures { IfOk result (λ text. text.items ≡ step_text point done events.now) }
{
    let hart = point.moment.place.hart;
    let line = step_lines(alloc, events, hart, step_place(&point, done))?;
    let text = line.as_bytes();
    match text {
        [] => copied(alloc, NO_ACCESS),
        [_, ..] => copied(alloc, text),
    }
}

/// The bytes of a text.
fn copied(alloc: Global, text: &[u8]) -> Result<Vec<u8>, OutOfMemory>
    ensures { IfOk result (λ copy. copy.items ≡ text.now) }
{
    let copy = Vec::from_slice(alloc, text)?;
    Ok(copy)
}

/// How many instructions the hart of a point had done before the step, where it has done so many there.
fn step_place(point: &Point, done: u64) -> u64
    ensures { result ≡ step_place point.now done }
{
    if point.side.is_behind_move() && point.moment.place.count > 0 {
        done.saturating_sub(1)
    } else {
        done
    }
}

/// The line of a hart's event among some, which it did after so many instructions.
fn step_lines(alloc: Global, events: &[Event], hart: u32, place: u64) -> Result<Line, OutOfMemory>
    ensures { IfOk result (λ line. line ≡ step_lines hart place events.now) }
{
    let mut line = Line::new(alloc);
    for event in events {
        add_step(&mut line, event, hart, place)?;
    }
    Ok(line)
}

/// Adds the line of an event, where it is that one.
fn add_step(line: &mut Line, event: &Event, hart: u32, place: u64) -> Result<(), OutOfMemory>
    ensures { OnOk result (line.new ≡ line.old ++ step_line hart place event.now) }
{
    if is_step(event, hart, place) {
        event_line(line, &mut Tail::new(), event)
    } else {
        Ok(())
    }
}

/// Whether an event is the one of a hart that it did after so many instructions.
fn is_step(event: &Event, hart: u32, place: u64) -> bool
    ensures { result ≡ is_step hart place event.now }
{
    u32::from(event.hart) == hart && event.access.place() == place
}
