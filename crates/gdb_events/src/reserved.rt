//! Which bytes each hart has reserved.

ghost use Rattle.std.specs.Prelude.{◌≡◌, ◌≤◌, ◌<◌, ◌+◌, ◌^◌, ◌++◌, List, filter, length, IfOk, OnOk};
ghost use Rattle.hex.specs.Hex.{encode_lower};
ghost use Rattle.machine.specs.Machine.{Running, after_rounds};
ghost use Rattle.machine.specs.Untraced.{IsAfter, IsUntraced};
ghost use Rattle.round_schedule.specs.declared.event.Event.{Event};
ghost use Rattle.round_schedule.specs.Reservations.{Tied};
ghost use Rattle.gdb_packets.specs.Writing.{packet_text};
ghost use Rattle.timelines.specs.Shown.{seen};
ghost use Rattle.gdb_events.specs.Reserved.{held_lines, is_seen, reservations_answer, reserved_text, seen_events, span_line, trace_at};
ghost use Rattle.gdb_events.specs.Rounds.{round_events};
ghost use Rattle.round_schedule.specs.Bounds.{AreWorkers};

use crate::held::{no_reservations, note};
use crate::round_events::{is_parallel, next_events};
use crate::saying::say_or;
use gdb_replies::{Reply, add_reservation_line, reply_text};
use machine::UntracedMachine;
use pages::OutOfMemory;
use past_harts::{Moment, Point};
use round_schedule::{Event, Span};
use std::alloc::Global;
use std::sync::Wait;
use std::thread::Threads;
use timelines::{Timeline, of_memory};

/// What is said where there are none.
const NONE: &[u8] = b"no reservations\n";

/// Answers with the reservations of the first harts, so many, at a point of the run, which begins with this machine. The rounds up to
/// the point are done for it with their events. It may wait.
pub fn answer_reservations<R: Threads + Wait + Sync>(
    rt: &R,
    alloc: Global,
    timeline: &mut Timeline,
    start: &mut UntracedMachine,
    point: Point,
    harts: u32,
    workers: u32,
) -> Result<Vec<u8>, OutOfMemory>
    requires within { point.moment.rounds ≤ timeline.old.rounds }
    requires workers { AreWorkers workers }
    requires fresh { start.old.rounds ≡ 0 }
    requires rounds { point.moment.rounds + 1 < 2 ^ 32 }
    requires start { start.old ≡ timeline.old.start }
    requires run { (m : Running) × IsUntraced m start.old }
    ensures stays { (timeline.new ≡ timeline.old) × (start.new ≡ start.old) }
    ensures text { (m : Running) → IsUntraced m timeline.old.start → IfOk result (λ text. text.items
        ≡ packet_text (reservations_answer m point harts (seen m point point.moment.place.hart))) }
{
    let moment = point.moment;
    let Some(sight) = timeline.shown_at(rt, &point, moment.place.hart, workers)? else {
        return reply_text(alloc, &Reply::Missing);
    };
    let done = sight.hart().done;
    drop(sight);
    let mut machine = of_memory(start.share())?;
    let held = reservations_at(rt, alloc, &mut machine, moment, done, harts, workers);
    drop(machine);
    let reservations = held?;
    say_reservations(alloc, reservations.as_slice())
}

/// The reservations at a moment of a hart that has done so many instructions, of a run that begins with this machine, which does the
/// rounds up to there.
fn reservations_at<R: Threads + Wait + Sync>(
    rt: &R,
    alloc: Global,
    machine: &mut UntracedMachine,
    moment: Moment,
    done: u64,
    harts: u32,
    workers: u32,
) -> Result<Vec<Option<Span>>, OutOfMemory>
    requires run { (m : Running) × IsUntraced m machine.old }
    requires fresh { machine.old.rounds ≡ 0 }
    requires rounds { moment.rounds + 1 < 2 ^ 32 }
    requires workers { AreWorkers workers }
    ensures count { IfOk result (λ v. length v.items ≡ harts) }
    ensures tied { (m : Running) → IsUntraced m machine.old → IfOk result (λ v. Tied v.items
        (trace_at moment done (after_rounds moment.rounds m))) }
{
    let mut reservations = reservations_after(rt, alloc, machine, moment.rounds, harts, workers)?;
    note_seen(rt, alloc, machine, moment, done, workers, &mut reservations)?;
    Ok(reservations)
}

/// The reservations after so many rounds of a run that begins with this machine, which does them.
fn reservations_after<R: Threads + Wait + Sync>(
    rt: &R,
    alloc: Global,
    machine: &mut UntracedMachine,
    rounds: u32,
    harts: u32,
    workers: u32,
) -> Result<Vec<Option<Span>>, OutOfMemory>
    requires run { (m : Running) × IsUntraced m machine.old }
    requires fresh { machine.old.rounds ≡ 0 }
    requires rounds { rounds + 1 < 2 ^ 32 }
    requires workers { AreWorkers workers }
    ensures runs { OnOk result (IsAfter rounds machine.old machine.new) }
    ensures counted { OnOk result (machine.new.rounds ≡ rounds) }
    ensures count { IfOk result (λ v. length v.items ≡ harts) }
    ensures tied { (m : Running) → IsUntraced m machine.old → IfOk result (λ v. Tied v.items
        (after_rounds rounds m).state.trace) }
{
    let mut reservations = no_reservations(alloc, harts)?;
    for _i in 0..rounds {
        let events = next_events(rt, alloc, machine, workers)?;
        note(&mut reservations, events.as_slice());
    }
    Ok(reservations)
}

/// Notes what the events of a machine's next round do to reservations, as far as they are seen at a moment of a hart.
fn note_seen<R: Threads + Wait + Sync>(
    rt: &R,
    alloc: Global,
    machine: &mut UntracedMachine,
    moment: Moment,
    done: u64,
    workers: u32,
    reservations: &mut Vec<Option<Span>>,
) -> Result<(), OutOfMemory>
    requires run { (m : Running) × IsUntraced m machine.old }
    requires rounds { machine.old.rounds + 1 < 2 ^ 32 }
    requires workers { AreWorkers workers }
    requires few { length reservations.old.items < 2 ^ 32 }
    ensures count { OnOk result (length reservations.new.items ≡ length reservations.old.items) }
    ensures tied { (m : Running) → IsUntraced m machine.old → (t : List Event) →
        Tied reservations.old.items t →
        OnOk result (Tied reservations.new.items (t ++ seen_events moment done (round_events m))) }
{
    if is_parallel(moment.place.phase) {
        return Ok(());
    }
    let events = next_events(rt, alloc, machine, workers)?;
    let seen = seen_of(alloc, events.as_slice(), moment, done)?;
    note(reservations, seen.as_slice());
    Ok(())
}

/// Those of a round's events that are seen at a moment of a hart in its turn, which has done so many instructions.
fn seen_of(
    alloc: Global,
    events: &[Event],
    moment: Moment,
    done: u64,
) -> Result<Vec<Event>, OutOfMemory>
    ensures { IfOk result (λ v. v.items ≡ filter (is_seen moment done) events.now) }
{
    let mut seen = Vec::new(alloc);
    for event in events {
        if is_seen(event, moment, done) {
            seen.push(*event)?;
        }
    }
    Ok(seen)
}

/// Whether an event is one of those.
fn is_seen(event: &Event, moment: Moment, done: u64) -> bool
    ensures { result ≡ is_seen moment done event.now }
{
    let hart = u32::from(event.hart);
    let mover = moment.place.hart;
    is_parallel(event.phase) || hart < mover || (hart == mover && event.access.place() < done)
}

/// Answers with some reservations.
fn say_reservations(alloc: Global, reservations: &[Option<Span>]) -> Result<Vec<u8>, OutOfMemory>
    requires few { length reservations.now < 2 ^ 32 }
    ensures { (t : List Event) → Tied reservations.now t → IfOk result (λ text. text.items ≡
        packet_text (encode_lower (reserved_text t (length reservations.now)))) }
{
    let text = held_lines(alloc, reservations)?;
    say_or(alloc, text.as_slice(), NONE)
}

/// A line for each hart that has one.
fn held_lines(alloc: Global, reservations: &[Option<Span>]) -> Result<Vec<u8>, OutOfMemory>
    requires few { length reservations.now < 2 ^ 32 }
    ensures { (t : List Event) → Tied reservations.now t →
        IfOk result (λ text. text.items ≡ held_lines t (length reservations.now)) }
{
    let mut text = Vec::new(alloc);
    for hart in 0..reservations.len() {
        add_span(&mut text, hart as u32, reservations[hart])?;
    }
    Ok(text)
}

/// Adds a hart's line, where it has one.
fn add_span(text: &mut Vec<u8>, hart: u32, held: Option<Span>) -> Result<(), OutOfMemory>
    ensures { OnOk result (text.new.items ≡ text.old.items ++ span_line hart held) }
{
    match held {
        Some(span) => add_reservation_line(text, hart, span.width.bytes(), span.address),
        None => Ok(()),
    }
}
