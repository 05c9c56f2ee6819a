ghost use Rattle.std.specs.Prelude.{◌≡◌, ℕ, List, [], ◌++◌, ◌+◌, filter, IfOk, OnOk, None, false};
ghost use Rattle.std.specs.List.{position};
ghost use Rattle.pages.specs.Memory.{IsBytes};
ghost use Rattle.pages.specs.declared.access.Range.{Range};
ghost use Rattle.round_schedule.specs.Schedule.{State};
ghost use Rattle.hart_step.specs.declared.hart.Hart.{Hart};
ghost use Rattle.hart_step.specs.Console.{ConsoleState};
ghost use Rattle.hart_step.specs.Words.{words_of};
ghost use Rattle.moments.specs.Moves.{events_left, moves_of};
ghost use Rattle.watching.specs.Watches.{beside, hit_at, hits_of};
ghost use Rattle.watching.specs.Saved.{saved_of};
ghost use Rattle.watching.specs.Events.{event_hits, hits_from, touches_some, told_alone, is_rival, tells};

use crate::rivals::is_rival;
use crate::saved::{Saved, saved_at};
use crate::told::{speaks_of, tells};
use crate::watchpoint::{Watchpoint, Way};
use pages::OutOfMemory;
use round_schedule::{Event, Phase};
use std::alloc::Global;
use trace::Trace;

/// A move of a round that a debugger is told of.
#[derive(Clone, Copy)]
pub struct Hit {
    /// The phase that it is made in.
    pub phase: Phase,
    /// Its hart.
    pub hart: u8,
    /// How many instructions the hart had done before it, since the run began.
    pub place: u64,
    /// Whether it is told as a rival: the first move of its hart's part that writes to the range, where an earlier hart's part wrote to it
    /// too; on the way back the last one, where a later hart's part wrote to it too.
    pub rival: bool,
    /// The watchpoint that tells of it, the first one of several.
    pub watch: usize,
}

/// The moves of a round that watchpoints tell of, in the order of the trace, each as a rival first. Of the round there are
/// the watched bytes at its start and its events.
///
/// # Errors
///
/// `OutOfMemory` alone.
pub fn hits_in_round(
    alloc: Global,
    saved: &[Saved],
    trace: &Trace,
    watches: &[Watchpoint],
    way: Way,
) -> Result<Vec<Hit>, OutOfMemory>
    ensures { (code : List Range) (budget : ℕ) (quotas : ℕ → List ℕ) (s : State Hart ConsoleState) →
        IsBytes s.bytes → saved.now ≡ saved_of watches.now s.bytes → trace.now.events ≡
        events_left (s.rounds + 1) (moves_of (words_of code) budget quotas s) →
        IfOk result (λ v.
        v.items ≡ hits_of way watches.now (moves_of (words_of code) budget quotas s)) }
{
    let events = touching(alloc, trace, watches)?;
    hits(alloc, saved, &events, watches, way)
}

/// The events of a trace that speak of a byte of one of the watched ranges.
fn touching(alloc: Global, trace: &Trace, watches: &[Watchpoint]) -> Result<Vec<Event>, OutOfMemory>
    ensures { IfOk result (λ v. v.items ≡ filter (touches_some watches.now) trace.now.events) }
{
    let mut found = Vec::new(alloc);
    for event in trace.events() {
        if touches_some(watches, &event) {
            found.push(event)?;
        }
    }
    Ok(found)
}

/// Whether an event does. No watchpoint tells of one that doesn't.
pub fn touches_some(watches: &[Watchpoint], event: &Event) -> bool
    ensures touches { result ≡ touches_some watches.now event.now }
    ensures none { touches_some watches.now event.now ≡ false → (bytes : List ℕ) →
        told_alone watches.now event.now bytes ≡ None }
{
    watches
        .iter()
        .any(|watch| speaks_of(&watch.range, &event.access))
}

/// Those of these events that watchpoints tell of.
fn hits(
    alloc: Global,
    saved: &[Saved],
    events: &[Event],
    watches: &[Watchpoint],
    way: Way,
) -> Result<Vec<Hit>, OutOfMemory>
    ensures { IfOk result (λ v. v.items ≡
        hits_from way saved.now watches.now [] events.now) }
{
    let mut found = Vec::new(alloc);
    for index in 0..events.len() {
        let earlier = &events[..index];
        let later = &events[index + 1..];
        add_hits(
            &mut found,
            saved,
            watches,
            way,
            earlier,
            later,
            &events[index],
        )?;
    }
    Ok(found)
}

/// Adds what is told of an event, after some of its round and before others.
fn add_hits(
    found: &mut Vec<Hit>,
    saved: &[Saved],
    watches: &[Watchpoint],
    way: Way,
    earlier: &[Event],
    later: &[Event],
    event: &Event,
) -> Result<(), OutOfMemory>
    ensures { OnOk result (found.new.items ≡ found.old.items ++
        event_hits way saved.now watches.now earlier.now later.now event.now) }
{
    let others = beside(way, earlier, later);
    let rival = first_rival(watches, way, others, event);
    add_hit(found, event, true, rival)?;
    let told = first_telling(watches, saved, earlier, event);
    add_hit(found, event, false, told)?;
    Ok(())
}

/// Those events beside one that its rivals are sought in.
fn beside<'a>(way: Way, earlier: &'a [Event], later: &'a [Event]) -> &'a [Event]
    ensures { result.now ≡ beside way earlier.now later.now }
{
    match way {
        Way::On => earlier,
        Way::Back => later,
    }
}

/// The first watchpoint that tells of an event as a rival.
fn first_rival(watches: &[Watchpoint], way: Way, others: &[Event], event: &Event) -> Option<usize>
    ensures { result ≡ position (is_rival others.now event.now) watches.now }
{
    watches
        .iter()
        .position(|watch| is_rival(watch, way, others, event))
}

/// The first one that tells of it as such.
fn first_telling(
    watches: &[Watchpoint],
    saved: &[Saved],
    earlier: &[Event],
    event: &Event,
) -> Option<usize>
    ensures { result ≡ position (tells saved.now earlier.now event.now) watches.now }
{
    watches
        .iter()
        .position(|watch| tells(watch, saved, earlier, event))
}

/// The first watchpoint that tells of an event by itself, where its hart sees these bytes before it at the event's addresses.
///
/// # Errors
///
/// `OutOfMemory` alone.
pub fn told_alone(
    alloc: Global,
    watches: &[Watchpoint],
    event: &Event,
    bytes: Vec<u8>,
) -> Result<Option<usize>, OutOfMemory>
    ensures { IfOk result (λ x. x ≡ told_alone watches.now event.now bytes.items) }
{
    let mut saved = Vec::new(alloc);
    saved.push(saved_at(&event.access, bytes))?;
    Ok(first_telling(watches, &saved, &[], event))
}

/// Adds a hit, where a watchpoint tells of it.
fn add_hit(
    found: &mut Vec<Hit>,
    event: &Event,
    rival: bool,
    watch: Option<usize>,
) -> Result<(), OutOfMemory>
    ensures { OnOk result (found.new.items ≡ found.old.items ++
        hit_at event.now.phase event.now.hart event.now.access rival watch) }
{
    if let Some(watch) = watch {
        found.push(Hit {
            phase: event.phase,
            hart: event.hart,
            place: event.access.place(),
            rival,
            watch,
        })?;
    }
    Ok(())
}
