//! Steps of one hart in which the others may move too.

ghost use Rattle.std.specs.Prelude.{◌≡◌, ℕ, ◌<◌, ◌≤◌, if◌then◌else◌, IfOk, IfSome};
ghost use Rattle.gdb_steps.specs.Steps.{Steps, at_side, StepsBackBeside, StepsBy, StepsFrom, StepsOn, begins_step, later_of, no_step, sought_from};
ghost use Rattle.gdb_runs.specs.Sessions.{IsReady, IsWithin, OfRun, state_of};

use crate::finding::{find_told, tell_or};
use gdb_replies::Reason;
use gdb_runs::{Debugged, Session, Standing, end_of, tell};
use gdb_talk::is_stopped;
use pages::OutOfMemory;
use past_harts::{Point, Side};
use round_steps::Told;
use std::alloc::Global;
use std::sync::Wait;
use std::thread::Threads;
use watching::Way;

/// A step of a hart, in which the others may go on. It may wait.
pub fn step<R: Threads + Wait + Sync>(
    rt: &R,
    alloc: Global,
    run: &mut Debugged,
    session: &Session,
    hart: u32,
) -> Result<Standing, OutOfMemory>
    requires ready { IsReady run.old session.now.standing }
    requires hart { hart < run.old.harts }
    ensures stays { run.new ≡ run.old }
    ensures steps { OfRun run.old (λ r. IfOk result (λ t. Steps r (state_of session.now) hart t)) }
    ensures ready { IfOk result (λ t. IsReady run.old t) }
{
    let there = run.hart_at(rt, &session.standing.point, hart)?;
    if is_stopped(there) {
        return Ok(session.standing.stays(Reason::End, hart));
    }
    step_on(rt, alloc, run, session, hart)
}

/// The same of a hart that has not stopped.
fn step_on<R: Threads + Wait + Sync>(
    rt: &R,
    alloc: Global,
    run: &mut Debugged,
    session: &Session,
    hart: u32,
) -> Result<Standing, OutOfMemory>
    requires ready { IsReady run.old session.now.standing }
    requires hart { hart < run.old.harts }
    ensures stays { run.new ≡ run.old }
    ensures steps { OfRun run.old (λ r. IfOk result (λ t.
        StepsOn r (state_of session.now) hart t)) }
    ensures ready { IfOk result (λ t. IsReady run.old t) }
{
    let from = sought_from(Way::On, session.standing.point, hart);
    let found = find_told(rt, alloc, run, session, Way::On, hart, &from)?;
    step_by(rt, alloc, run, session, hart, found)
}

/// Where a step of a hart begins to be sought.
pub(crate) fn sought_from(way: Way, here: Point, hart: u32) -> Point
    ensures from { result ≡ sought_from way here hart }
    ensures round { result.moment.rounds ≡ here.moment.rounds }
{
    let is_own = here.moment.place.hart == hart;
    match way {
        Way::On => at_side_if(is_own, here, Side::RivalAfter),
        Way::Back => at_side_if(is_own && !here.side.is_behind_move(), here, Side::Break),
    }
}

/// Another side of the moment, if so; else the same point.
pub(crate) fn at_side_if(other: bool, at: Point, side: Side) -> Point
    ensures point { result ≡ (if other then at_side at side else at) }
    ensures round { result.moment.rounds ≡ at.moment.rounds }
{
    if other { Point { side, ..at } } else { at }
}

/// A step of the hart where this is found first: a moment at which it begins, or another one that is told.
fn step_by<R: Threads + Wait + Sync>(
    rt: &R,
    alloc: Global,
    run: &mut Debugged,
    session: &Session,
    hart: u32,
    found: Option<Told>,
) -> Result<Standing, OutOfMemory>
    requires ready { IsReady run.old session.now.standing }
    requires within { IfSome found (λ x. IsWithin run.old x.point) }
    ensures stays { run.new ≡ run.old }
    ensures steps { OfRun run.old (λ r. IfOk result (λ t.
        StepsBy r (state_of session.now) hart found t)) }
    ensures ready { IfOk result (λ t. IsReady run.old t) }
{
    let Some(told) = found else {
        return Ok(end_of(run, session.standing, Way::On));
    };
    if begins_step(rt, run, session, hart, told)? {
        step_from(rt, alloc, run, session, hart, told.point)
    } else {
        tell(rt, run, session, told)
    }
}

/// Whether a step of the hart begins where this is told.
fn begins_step<R: Threads + Wait + Sync>(
    rt: &R,
    run: &mut Debugged,
    session: &Session,
    hart: u32,
    told: Told,
) -> Result<bool, OutOfMemory>
    requires ready { IsReady run.old session.now.standing }
    requires within { IsWithin run.old told.point }
    ensures stays { run.new ≡ run.old }
    ensures begins { OfRun run.old (λ r. IfOk result (λ b.
        b ≡ begins_step r (state_of session.now) hart told)) }
{
    let moment = told.point.moment;
    if moment.place.hart != hart {
        return Ok(false);
    }
    if !session.standing.point.moment.is_before(&moment) {
        return Ok(true);
    }
    let there = run.hart_at(rt, &told.point, hart)?;
    Ok(session.stops.why(told.watch, there) == Reason::Step && !is_stopped(there))
}

/// A step of the hart that begins at a point.
fn step_from<R: Threads + Wait + Sync>(
    rt: &R,
    alloc: Global,
    run: &mut Debugged,
    session: &Session,
    hart: u32,
    at: Point,
) -> Result<Standing, OutOfMemory>
    requires ready { IsReady run.old session.now.standing }
    requires within { IsWithin run.old at }
    ensures stays { run.new ≡ run.old }
    ensures steps { OfRun run.old (λ r. IfOk result (λ t.
        StepsFrom r (state_of session.now) hart at t)) }
    ensures ready { IfOk result (λ t. IsReady run.old t) }
{
    let from = later_of(session.standing.point, at);
    let found = find_told(rt, alloc, run, session, Way::On, hart, &from)?;
    let end = end_of(run, session.standing, Way::On);
    tell_or(rt, run, session, found, end)
}

/// The later one of two points.
pub(crate) fn later_of(point: Point, other: Point) -> Point
    ensures point { result ≡ later_of point other }
    ensures round { (n : ℕ) → point.moment.rounds ≤ n → other.moment.rounds ≤ n →
        result.moment.rounds ≤ n }
{
    if point.is_before(&other) {
        other
    } else {
        point
    }
}

/// A step back of the hart that is asked about, in which the others may go back too. It may wait.
pub(crate) fn step_back_beside<R: Threads + Wait + Sync>(
    rt: &R,
    alloc: Global,
    run: &mut Debugged,
    session: &Session,
) -> Result<Standing, OutOfMemory>
    requires ready { IsReady run.old session.now.standing }
    ensures stays { run.new ≡ run.old }
    ensures steps { OfRun run.old (λ r. IfOk result (λ t.
        StepsBackBeside r (state_of session.now) session.now.standing.general t)) }
    ensures ready { IfOk result (λ t. IsReady run.old t) }
{
    let standing = session.standing;
    let hart = standing.general;
    let from = sought_from(Way::Back, standing.point, hart);
    let found = find_told(rt, alloc, run, session, Way::Back, hart, &from)?;
    let stays = no_step(run, standing, Way::Back, hart);
    tell_or(rt, run, session, found, stays)
}

/// Where a hart has no step.
pub(crate) fn no_step(run: &Debugged, standing: Standing, way: Way, hart: u32) -> Standing
    requires ready { IsReady run.now standing }
    requires hart { hart < run.now.harts }
    ensures stands { result ≡ no_step run.now.timeline.rounds standing way hart }
    ensures ready { IsReady run.now result }
{
    match way {
        Way::On => end_of(run, standing, Way::On),
        Way::Back => standing.stays(Reason::Begin, hart),
    }
}
