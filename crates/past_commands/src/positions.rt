//! What `watch` finds in an execution.
ghost use Rattle.std.specs.Prelude.{◌≡◌, IfErr, IfOk, map};
ghost use Rattle.execution_file.specs.Views.{as_recorded};
ghost use Rattle.past_commands.specs.Refused.{EndsExecutionWatch, EndsLooking};
ghost use Rattle.past_commands.specs.Watches.{AreExecutionHits, IsCheckedWatch, IsExecutionWatch, event_there, pc_there};

use crate::checked::check_answer;
use crate::executions::{refuse_some_rounds, refuse_workers};
use crate::naming::{access_ranges, watched_bytes};
use crate::watched::{Hits, Watched};
use byte_sources::no_event;
use command_line::Watch;
use execution_commands::{is_allowed, read_execution_text};
use execution_file::ExecutionFile;
use execution_scripts::{Checked, check_file, positions_sought};
use program_files::CommandFailure;
use round_schedule::Event;
use std::alloc::{AllocError, Global};

/// What came of watching the execution that a text says: the operations that touch one of the ranges, in the order of memory or, where
/// RVWMO doesn't allow the execution, what is told of it.
pub(crate) fn watch_execution(
    alloc: Global,
    text: &[u8],
    asked: &Watch<'_>,
) -> Result<Watched, CommandFailure>
    ensures watches { IfOk result (IsExecutionWatch text.now asked.now) }
    ensures errors { IfErr result (EndsExecutionWatch text.now asked.now) }
{
    let file = read_execution_text(alloc, text)?;
    refuse_some_rounds(asked.from, asked.to)?;
    refuse_workers(asked.workers)?;
    let checked = check_file(alloc, &file, None)?;
    watch_checked(alloc, &file, &checked, asked)
}

/// The same of an execution that was checked.
fn watch_checked(
    alloc: Global,
    file: &ExecutionFile,
    checked: &Checked,
    asked: &Watch<'_>,
) -> Result<Watched, CommandFailure>
    ensures watches { IfOk result (IsCheckedWatch (as_recorded file.now) asked.now checked.now) }
    ensures errors { IfErr result (EndsLooking (as_recorded file.now) asked.now) }
{
    if !is_allowed(checked) {
        return Ok(Watched::Refused(check_answer(alloc, checked)?));
    }
    let named = watched_bytes(alloc, &file.image, asked)?;
    let ranges = access_ranges(alloc, &named)?;
    let events = checked.execution.events();
    let (hart, stores) = (asked.hart, asked.stores);
    let positions = positions_sought(alloc, events, &checked.order, &ranges, hart, stores)?;
    Ok(Watched::Hits(hits_at(alloc, checked, &positions, asked.pc)?))
}

/// The operations at these positions, with their pcs where these are asked for.
fn hits_at(
    alloc: Global,
    checked: &Checked,
    positions: &[usize],
    with_pcs: bool,
) -> Result<Hits, AllocError>
    ensures { IfOk result (AreExecutionHits with_pcs checked.now positions.now) }
{
    let (events, order) = (checked.execution.events(), checked.order.0.as_slice());
    let pcs = if with_pcs {
        pcs_at(alloc, order, &checked.sights.pcs, positions)?
    } else {
        Vec::new(alloc)
    };
    let events = events_at(alloc, events, order, positions)?;
    Ok(Hits { events, pcs })
}

/// The events of the operations at these positions.
fn events_at(
    alloc: Global,
    events: &[Event],
    order: &[usize],
    positions: &[usize],
) -> Result<Vec<Event>, AllocError>
    ensures { IfOk result (λ v. v.items ≡ map (event_there events.now order.now) positions.now) }
{
    positions
        .iter()
        .map(|position| event_there(events, order, *position))
        .collect(alloc)
}

/// The event of the operation at a position of an order. An execution has no rounds: the position stands there.
fn event_there(events: &[Event], order: &[usize], position: usize) -> Event
    ensures { result ≡ event_there events.now order.now position }
{
    let index = order.get(position).copied().unwrap_or(0);
    let event = match events.get(index) {
        Some(event) => *event,
        None => no_event(),
    };
    Event {
        round: u32::try_from(position).unwrap_or(u32::MAX),
        ..event
    }
}

/// The pcs of the instructions of the operations at these positions.
fn pcs_at(
    alloc: Global,
    order: &[usize],
    pcs: &[u64],
    positions: &[usize],
) -> Result<Vec<Option<u64>>, AllocError>
    ensures { IfOk result (λ v. v.items ≡ map (pc_there order.now pcs.now) positions.now) }
{
    positions
        .iter()
        .map(|position| pc_there(order, pcs, *position))
        .collect(alloc)
}

/// The pc of the instruction of the operation at a position of an order.
fn pc_there(order: &[usize], pcs: &[u64], position: usize) -> Option<u64>
    ensures { result ≡ pc_there order.now pcs.now position }
{
    let index = order.get(position).copied().unwrap_or(0);
    pcs.get(index).copied()
}
