ghost use Rattle.std.specs.Prelude.{◌≡◌, IfOk};
ghost use Rattle.std.specs.List.{list_any};
ghost use Rattle.round_schedule.specs.Positions.{event};
ghost use Rattle.byte_sources.specs.Touching.{touches};
ghost use Rattle.picture.specs.Views.{is_seen, is_shown, indexes_seen};

use byte_sources::{event_at, touches};
use pages::{OutOfMemory, Range};
use round_schedule::{Access, Event};
use std::alloc::Global;
use trace::Trace;

/// What a picture shows of a run.
#[derive(Clone, Copy)]
pub struct View<'a> {
    /// Only events that touch a byte of one of these ranges are shown; all of them, where there is no range.
    pub ranges: &'a [Range],
    /// The first round that is shown.
    pub from: u32,
    /// The last round that is shown.
    pub to: u32,
}

fn touches_any(ranges: &[Range], access: &Access) -> bool
    ensures { result ≡ list_any (touches access.now) ranges.now }
{
    ranges.iter().any(|range| touches(access, range))
}

fn is_seen(ranges: &[Range], access: &Access) -> bool
    ensures { result ≡ is_seen ranges.now access.now }
{
    ranges.is_empty() || touches_any(ranges, access)
}

fn is_shown(view: &View<'_>, event: &Event) -> bool
    ensures { result ≡ is_shown view.now event.now }
{
    view.from <= event.round && event.round <= view.to && is_seen(view.ranges, &event.access)
}

fn is_shown_at(view: &View<'_>, trace: &Trace, index: usize) -> bool
    ensures { result ≡ is_shown view.now (event trace.now.events index) }
{
    is_shown(view, &event_at(trace, index))
}

/// The indexes of the events that the view shows, in rising order.
#[tactic(auto, unfolding(crate::specs::Views::indexes_seen))]
pub(crate) fn indexes_seen(
    alloc: Global,
    view: &View<'_>,
    trace: &Trace,
) -> Result<Vec<usize>, OutOfMemory>
    ensures { IfOk result (λ v. v.items ≡ indexes_seen view.now trace.now.events) }
{
    let indexes: Vec<usize> = (0..trace.len())
        .filter(|index| is_shown_at(view, trace, *index))
        .collect(alloc)?;
    Ok(indexes)
}
