//! Which events have a box of their own.

ghost use Rattle.std.specs.Prelude.{◌≡◌, ◌+◌, ◌≤◌, ◌-◌, ◌++◌, ◌∷◌, [], All, IfOk, OnOk, drop, length, map, take};
ghost use Rattle.round_schedule.specs.Positions.{event};
ghost use Rattle.picture.specs.Rows.{events_shown, is_more, index_before, rows_after, rows_seen, times};

use crate::view::{View, indexes_seen};
use byte_sources::{event_at, is_repeated};
use pages::OutOfMemory;
use round_schedule::Event;
use std::alloc::Global;
use trace::Trace;

/// The most boxes that a picture has.
pub(crate) const MOST: usize = 400;

/// An event that has a box, and how many in a row are the same load.
#[derive(Clone, Copy, PartialEq, Eq)]
pub(crate) struct Row {
    pub index: usize,
    pub times: u64,
}

/// Whether the event at an index repeats the one before it.
fn is_more(trace: &Trace, before: Option<usize>, index: usize) -> bool
    ensures { result ≡ is_more trace.now.events before index }
{
    match before {
        None => false,
        Some(before) => is_repeated(trace, before, index),
    }
}

/// How many events in a row are the same load, of which the first is at an index and these follow.
fn times(trace: &Trace, index: usize, rest: &[usize]) -> u64
    ensures { result ≡ times trace.now.events index rest.now }
{
    let mut last = index;
    let mut count = 1;
    for next in rest {
        if !is_repeated(trace, last, *next) {
            return count;
        }
        last = *next;
        count += 1;
    }
    count
}

/// The index before the one of a number.
fn index_before(indexes: &[usize], number: usize) -> Option<usize>
    requires { number ≤ length indexes.now }
    ensures { result ≡ index_before indexes.now number }
{
    match number {
        0 => None,
        _ => Some(indexes[number - 1]),
    }
}

/// The rows of the events at these indexes.
fn rows_of(alloc: Global, trace: &Trace, indexes: &[usize]) -> Result<Vec<Row>, OutOfMemory>
    ensures { IfOk result (λ v. v.items ≡ rows_after trace.now.events None indexes.now) }
{
    let mut rows = Vec::new(alloc);
    for (number, index) in indexes.iter().enumerate() {
        if !is_more(trace, index_before(indexes, number), *index) {
            rows.push(Row {
                index: *index,
                times: times(trace, *index, &indexes[number + 1..]),
            })?;
        }
    }
    Ok(rows)
}

/// The rows of all events that a view shows.
pub(crate) fn rows_seen(
    alloc: Global,
    view: &View<'_>,
    trace: &Trace,
) -> Result<Vec<Row>, OutOfMemory>
    ensures { IfOk result (λ v. v.items ≡ rows_seen view.now trace.now.events) }
{
    let indexes = indexes_seen(alloc, view, trace)?;
    rows_of(alloc, trace, &indexes)
}

fn shown_events(alloc: Global, trace: &Trace, view: &View<'_>) -> Result<Vec<Event>, OutOfMemory>
    ensures { IfOk result (λ v. v.items ≡ events_shown view.now trace.now.events) }
{
    let mut rows = rows_seen(alloc, view, trace)?;
    rows.truncate(MOST);
    let events: Vec<Event> = rows
        .iter()
        .map(|row| event_at(trace, row.index))
        .collect(alloc)?;
    Ok(events)
}

/// The events that have a box in the picture of a trace, in order. None of them is of a round before the view's first one.
///
/// # Errors
///
/// `OutOfMemory` alone.
pub fn events_shown(
    alloc: Global,
    trace: &Trace,
    view: &View<'_>,
) -> Result<Vec<Event>, OutOfMemory>
    ensures shown { IfOk result (λ v. v.items ≡ events_shown view.now trace.now.events) }
    ensures later { IfOk result (λ v. All (λ e. view.now.from ≤ e.round) v.items) }
{
    let events = shown_events(alloc, trace, view)?;
    Ok(events)
}
