ghost use Rattle.std.specs.Prelude.{◌≡◌, ◌+◌, ◌<◌, ◌≤◌, ◌^◌, IfOk, length};
ghost use Rattle.std.specs.List.{list_any};
ghost use Rattle.byte_sources.specs.Phases.{one_phase, same_turn};
ghost use Rattle.picture.specs.Layout.{are_beside, boxes_of, last_top, last_top_of_phase, left_of, opens_phase, opens_turn, step, top_under, width_for};

use crate::event_box::EventBox;
use crate::rows::Row;
use byte_sources::{event_at, is_same_phase, is_same_turn, is_serial};
use pages::OutOfMemory;
use round_schedule::{Event, MOST_HARTS};
use std::alloc::Global;
use trace::Trace;

/// The left edge of a hart's column.
pub fn left_of(hart: u64) -> u64
    requires { hart ≤ 255 }
    ensures { result ≡ left_of hart }
{
    130 + 230 * hart
}

/// How wide the picture of so many harts is.
pub fn width_for(harts: usize) -> u64
    requires { harts ≤ MOST_HARTS }
    ensures { result ≡ width_for harts }
{
    left_of(harts.max(2) as u64)
}

fn are_beside(one: &Event, other: &Event) -> bool
    ensures { result ≡ are_beside one.now other.now }
{
    is_same_phase(one, other) && !is_serial(one.phase) && one.hart != other.hart
}

fn step(one: &Event, other: &Event) -> u64
    ensures step { result ≡ step one.now other.now }
    ensures small { result ≤ 92 }
{
    if is_same_phase(one, other) {
        68
    } else if one.round == other.round {
        78
    } else {
        92
    }
}

/// The top of an event's box, under the boxes before it.
fn top_under(boxes: &[EventBox], event: &Event) -> u64
    ensures top { result ≡ top_under boxes.now event.now }
    ensures low { result < 2 ^ 32 + 92 }
{
    match boxes {
        [] => 236,
        [first, rest @ ..] => {
            let under_rest = top_under(rest, event);
            if are_beside(&first.event, event) {
                under_rest
            } else {
                under_rest.max(first.top as u64 + step(&first.event, event))
            }
        }
    }
}

/// The boxes of these rows of a trace.
pub(crate) fn boxes_of(
    alloc: Global,
    trace: &Trace,
    rows: &[Row],
) -> Result<Vec<EventBox>, OutOfMemory>
    requires { length rows.now ≤ 400 }
    ensures { IfOk result (λ v. v.items ≡ boxes_of trace.now.events rows.now) }
{
    let mut boxes = Vec::new(alloc);
    for row in rows {
        let event = event_at(trace, row.index);
        let top = top_under(&boxes, &event);
        let next = EventBox {
            index: row.index,
            event,
            times: row.times,
            top: top as u32,
        };
        boxes.push(next)?;
    }
    Ok(boxes)
}

/// The greatest top of the boxes of an event's phase; 0 where there are none.
pub(crate) fn last_top_of_phase(boxes: &[EventBox], event: &Event) -> u64
    ensures top { result ≡ last_top_of_phase boxes.now event.now }
    ensures low { result < 2 ^ 32 }
{
    match boxes {
        [] => 0,
        [first, rest @ ..] => {
            let last = last_top_of_phase(rest, event);
            if is_same_phase(&first.event, event) {
                last.max(first.top as u64)
            } else {
                last
            }
        }
    }
}

/// The greatest top of all boxes, and where the first box stands at least.
pub(crate) fn last_top(boxes: &[EventBox]) -> u64
    ensures top { result ≡ last_top boxes.now }
    ensures low { result < 2 ^ 32 }
{
    match boxes {
        [] => 236,
        [first, rest @ ..] => last_top(rest).max(first.top as u64),
    }
}

fn has_phase(boxes: &[EventBox], event: &Event) -> bool
    ensures { result ≡ list_any (λ b. one_phase b.event event.now) boxes.now }
{
    boxes.iter().any(|shown| is_same_phase(&shown.event, event))
}

fn has_turn(boxes: &[EventBox], event: &Event) -> bool
    ensures { result ≡ list_any (λ b. same_turn b.event event.now) boxes.now }
{
    boxes.iter().any(|shown| is_same_turn(&shown.event, event))
}

/// Whether an event is the first of its phase.
pub(crate) fn opens_phase(earlier: &[EventBox], event: &Event) -> bool
    ensures { result ≡ opens_phase earlier.now event.now }
{
    !has_phase(earlier, event)
}

/// Whether an event is its hart's first in its phase.
pub(crate) fn opens_turn(earlier: &[EventBox], event: &Event) -> bool
    ensures { result ≡ opens_turn earlier.now event.now }
{
    !has_turn(earlier, event)
}
