//! Steps of one hart alone: of no other hart anything is told.

ghost use Rattle.std.specs.Prelude.{◌≡◌, ℕ, ◌≤◌, ◌<◌, IfOk, IfSome};
ghost use Rattle.watching.specs.declared.watchpoint.Way.TheVariants.{On};
ghost use Rattle.gdb_steps.specs.Steps.{MovesAlone, MovesAloneBy, Passes, PassesOne, StepsAlone, StepsBack, after_one, alone_at, is_rival, is_watch, led_to, only_looks, own_from, own_moment, sooner_of, stands_alone, with_fault};
ghost use Rattle.gdb_talk.specs.Told.{is_stopped};
ghost use Rattle.gdb_runs.specs.Sessions.{IsReady, IsWithin, OfRun, state_of};
ghost use Rattle.round_schedule.specs.Bounds.{AreWorkers};

use crate::stepping::{at_side_if, later_of, no_step, sought_from, step_back_beside};
use gdb_replies::Reason;
use gdb_runs::{Debugged, Session, Standing, find, only_of, tell, watched_of};
use gdb_talk::{is_stopped, why};
use hart_step::Hart;
use pages::OutOfMemory;
use past_harts::{Moment, Place, Point, Side};
use round_steps::Told;
use std::alloc::Global;
use std::sync::Wait;
use std::thread::Threads;
use watching::Way;

/// A step of a hart alone. It may wait.
pub fn step_alone<R: Threads + Wait + Sync>(
    rt: &R,
    alloc: Global,
    run: &mut Debugged,
    session: &Session,
    hart: u32,
) -> Result<Standing, OutOfMemory>
    requires ready { IsReady run.old session.now.standing }
    requires hart { hart < run.old.harts }
    ensures stays { run.new ≡ run.old }
    ensures steps { OfRun run.old (λ r. IfOk result (λ t.
        StepsAlone r (state_of session.now) hart t)) }
    ensures ready { IfOk result (λ t. IsReady run.old t) }
{
    let there = run.hart_at(rt, &session.standing.point, hart)?;
    if is_stopped(there) {
        return Ok(session.standing.stays(Reason::End, hart));
    }
    pass(rt, alloc, run, session, Way::On, hart)
}

/// A step back, of the hart alone that is to move so, if there is one. It may wait.
pub fn step_back<R: Threads + Wait + Sync>(
    rt: &R,
    alloc: Global,
    run: &mut Debugged,
    session: &Session,
) -> Result<Standing, OutOfMemory>
    requires ready { IsReady run.old session.now.standing }
    ensures stays { run.new ≡ run.old }
    ensures steps { OfRun run.old (λ r. IfOk result (λ t. StepsBack r (state_of session.now) t)) }
    ensures ready { IfOk result (λ t. IsReady run.old t) }
{
    match session.standing.moving {
        None => step_back_beside(rt, alloc, run, session),
        Some(hart) => pass(rt, alloc, run, session, Way::Back, hart),
    }
}

/// Passes the hart's move. Where a rival was told the debugger only looks.
fn pass<R: Threads + Wait + Sync>(
    rt: &R,
    alloc: Global,
    run: &mut Debugged,
    session: &Session,
    way: Way,
    hart: u32,
) -> Result<Standing, OutOfMemory>
    requires ready { IsReady run.old session.now.standing }
    requires hart { hart < run.old.harts }
    ensures stays { run.new ≡ run.old }
    ensures passes { OfRun run.old (λ r. IfOk result (λ t.
        Passes r (state_of session.now) way hart t)) }
    ensures ready { IfOk result (λ t. IsReady run.old t) }
{
    if only_looks(way, &session.standing, hart) {
        return Ok(session.standing.stays(Reason::Step, hart));
    }
    pass_one(rt, alloc, run, session, way, hart)
}

/// Whether a rival of the hart was told where it stands.
fn only_looks(way: Way, standing: &Standing, hart: u32) -> bool
    ensures { result ≡ only_looks way standing.now hart }
{
    is_watch(standing.reason)
        && is_rival(way, standing.point.side)
        && standing.point.moment.place.hart == hart
}

/// Whether a watchpoint for changes is the reason.
fn is_watch(reason: Reason) -> bool
    ensures { result ≡ is_watch reason }
{
    match reason {
        Reason::Watch(_) => true,
        Reason::Step
        | Reason::Breakpoint
        | Reason::HardwareBreakpoint
        | Reason::ReadWatch(_)
        | Reason::AccessWatch(_)
        | Reason::Signal(_)
        | Reason::Begin
        | Reason::End => false,
    }
}

/// Whether rivals are told on this side.
fn is_rival(way: Way, side: Side) -> bool
    ensures { result ≡ is_rival way side }
{
    match way {
        Way::On => match side {
            Side::Rival => true,
            Side::After | Side::RivalAfter | Side::Break | Side::Access => false,
        },
        Way::Back => match side {
            Side::RivalAfter => true,
            Side::After | Side::Break | Side::Rival | Side::Access => false,
        },
    }
}

/// The same where it is to move.
fn pass_one<R: Threads + Wait + Sync>(
    rt: &R,
    alloc: Global,
    run: &mut Debugged,
    session: &Session,
    way: Way,
    hart: u32,
) -> Result<Standing, OutOfMemory>
    requires ready { IsReady run.old session.now.standing }
    requires hart { hart < run.old.harts }
    ensures stays { run.new ≡ run.old }
    ensures passes { OfRun run.old (λ r. IfOk result (λ t.
        PassesOne r (state_of session.now) way hart t)) }
    ensures ready { IfOk result (λ t. IsReady run.old t) }
{
    let telling = only_of(alloc, hart);
    let from = sought_from(way, session.standing.point, hart);
    let found = find(rt, run, way, telling, &from)?;
    move_by(rt, alloc, run, session, way, hart, found)
}

/// The move of the hart that was found, if there is one.
fn move_by<R: Threads + Wait + Sync>(
    rt: &R,
    alloc: Global,
    run: &mut Debugged,
    session: &Session,
    way: Way,
    hart: u32,
    found: Option<Told>,
) -> Result<Standing, OutOfMemory>
    requires ready { IsReady run.old session.now.standing }
    requires hart { hart < run.old.harts }
    requires within { IfSome found (λ x. IsWithin run.old x.point) }
    ensures stays { run.new ≡ run.old }
    ensures moves { OfRun run.old (λ r. IfOk result (λ t.
        MovesAloneBy r (state_of session.now) way hart found t)) }
    ensures ready { IfOk result (λ t. IsReady run.old t) }
{
    match found {
        Some(told) => move_alone(rt, alloc, run, session, way, hart, told.point),
        None => Ok(no_step(run, session.standing, way, hart)),
    }
}

/// The hart's move at a point, of which it is told what watchpoints tell.
fn move_alone<R: Threads + Wait + Sync>(
    rt: &R,
    alloc: Global,
    run: &mut Debugged,
    session: &Session,
    way: Way,
    hart: u32,
    at: Point,
) -> Result<Standing, OutOfMemory>
    requires ready { IsReady run.old session.now.standing }
    requires hart { hart < run.old.harts }
    requires within { IsWithin run.old at }
    ensures stays { run.new ≡ run.old }
    ensures moves { OfRun run.old (λ r. IfOk result (λ t.
        MovesAlone r (state_of session.now) way hart at t)) }
    ensures ready { IfOk result (λ t. IsReady run.old t) }
{
    let telling = watched_of(alloc, session, hart)?;
    let from = own_from(way, session.standing.point, at);
    let found = find(rt, run, way, telling, &from)?;
    stand_alone(rt, run, session, way, hart, at, found)
}

/// Where what is told of a move is sought from.
fn own_from(way: Way, here: Point, at: Point) -> Point
    ensures from { result ≡ own_from way here at }
    ensures round { (n : ℕ) → here.moment.rounds ≤ n → at.moment.rounds ≤ n →
        result.moment.rounds ≤ n }
{
    match way {
        Way::On => later_of(here, at),
        Way::Back => sooner_of(
            here,
            Point {
                moment: after_one(at.moment),
                side: Side::Break,
            },
        ),
    }
}

/// The sooner one of two points.
fn sooner_of(point: Point, other: Point) -> Point
    ensures point { result ≡ sooner_of point other }
    ensures round { (n : ℕ) → point.moment.rounds ≤ n → other.moment.rounds ≤ n →
        result.moment.rounds ≤ n }
{
    if point.is_before(&other) {
        point
    } else {
        other
    }
}

/// The moment behind a move.
fn after_one(at: Moment) -> Moment
    ensures moment { result ≡ after_one at }
    ensures round { result.rounds ≡ at.rounds }
{
    let place = Place {
        count: at.place.count.wrapping_add(1),
        ..at.place
    };
    Moment { place, ..at }
}

/// Where it stands where this is found: what is told of the move, or else where the move leads.
fn stand_alone<R: Threads + Wait + Sync>(
    rt: &R,
    run: &mut Debugged,
    session: &Session,
    way: Way,
    hart: u32,
    at: Point,
    found: Option<Told>,
) -> Result<Standing, OutOfMemory>
    requires ready { IsReady run.old session.now.standing }
    requires hart { hart < run.old.harts }
    requires within { IsWithin run.old at }
    requires found { IfSome found (λ x. IsWithin run.old x.point) }
    ensures stays { run.new ≡ run.old }
    ensures standing { OfRun run.old (λ r.
        IfOk result (λ t. t ≡ alone_at r (state_of session.now) way hart at found)) }
    ensures ready { IfOk result (λ t. IsReady run.old t) }
{
    let Some(told) = found else {
        return lead(rt, run, session, way, hart, at);
    };
    if told.point.moment.is_same(&own_moment(way, at.moment)) {
        tell(rt, run, session, told)
    } else {
        lead(rt, run, session, way, hart, at)
    }
}

/// The moment at which a move is told.
fn own_moment(way: Way, at: Moment) -> Moment
    ensures { result ≡ own_moment way at }
{
    match way {
        Way::On => at,
        Way::Back => after_one(at),
    }
}

/// Where it stands where the hart's move leads.
fn lead<R: Threads + Wait + Sync>(
    rt: &R,
    run: &mut Debugged,
    session: &Session,
    way: Way,
    hart: u32,
    at: Point,
) -> Result<Standing, OutOfMemory>
    requires ready { IsReady run.old session.now.standing }
    requires hart { hart < run.old.harts }
    requires within { IsWithin run.old at }
    ensures stays { run.new ≡ run.old }
    ensures standing { OfRun run.old (λ r.
        IfOk result (λ t. t ≡ stands_alone r (state_of session.now) hart (led_to r way hart at))) }
    ensures ready { IfOk result (λ t. IsReady run.old t) }
{
    let to = led_to(rt, run, way, hart, at)?;
    stand_at(rt, run, session, hart, to)
}

/// Where the hart's move leads: it is none where the hart has stopped.
fn led_to<R: Threads + Wait + Sync>(
    rt: &R,
    run: &mut Debugged,
    way: Way,
    hart: u32,
    at: Point,
) -> Result<Point, OutOfMemory>
    requires within { at.moment.rounds ≤ run.old.timeline.rounds }
    requires workers { AreWorkers run.old.workers }
    ensures stays { run.new ≡ run.old }
    ensures leads { OfRun run.old (λ r. IfOk result (λ x. x ≡ led_to r way hart at)) }
    ensures round { IfOk result (λ x. x.moment.rounds ≡ at.moment.rounds) }
{
    match way {
        Way::On => behind(rt, run, hart, at),
        Way::Back => Ok(at),
    }
}

/// Behind the hart's move from a point.
fn behind<R: Threads + Wait + Sync>(
    rt: &R,
    run: &mut Debugged,
    hart: u32,
    at: Point,
) -> Result<Point, OutOfMemory>
    requires within { at.moment.rounds ≤ run.old.timeline.rounds }
    requires workers { AreWorkers run.old.workers }
    ensures stays { run.new ≡ run.old }
    ensures leads { OfRun run.old (λ r. IfOk result (λ x. x ≡ led_to r On hart at)) }
    ensures round { IfOk result (λ x. x.moment.rounds ≡ at.moment.rounds) }
{
    let there = run.hart_at(rt, &at, hart)?;
    if is_stopped(there) {
        return Ok(at);
    }
    Ok(Point {
        moment: after_one(at.moment),
        side: Side::RivalAfter,
    })
}

/// Where it stands at a point of the hart, with what is told there ahead, but for a fault of its own.
fn stand_at<R: Threads + Wait + Sync>(
    rt: &R,
    run: &mut Debugged,
    session: &Session,
    hart: u32,
    at: Point,
) -> Result<Standing, OutOfMemory>
    requires ready { IsReady run.old session.now.standing }
    requires hart { hart < run.old.harts }
    requires within { at.moment.rounds ≤ run.old.timeline.rounds }
    ensures stays { run.new ≡ run.old }
    ensures standing { OfRun run.old (λ r.
        IfOk result (λ t. t ≡ stands_alone r (state_of session.now) hart at)) }
    ensures ready { IfOk result (λ t. IsReady run.old t) }
{
    let there = run.hart_at(rt, &at, hart)?;
    let reason = why(&[], &[], there);
    Ok(session.standing.moved(with_fault(there, at), reason, hart))
}

/// A point of a hart, or the same behind what is told of the hart's fault.
fn with_fault(hart: Option<Hart>, at: Point) -> Point
    ensures point { result ≡ with_fault hart at }
    ensures round { result.moment.rounds ≡ at.moment.rounds }
{
    at_side_if(is_stopped(hart), at, Side::Break)
}
