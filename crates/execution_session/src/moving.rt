//! On and back, to what is told next or by a step.

ghost use Rattle.std.specs.Prelude.{◌≡◌, ◌++◌, ◌<◌, IfOk, IfSome, Some, None, length, true};
ghost use Rattle.execution_moments.specs.Looked.{looked_at};
ghost use Rattle.execution_moments.specs.Points.{at};
ghost use Rattle.execution_moments.specs.Shown.{previous_of};
ghost use Rattle.execution_moments.specs.declared.point.TimeSide.TheVariants.{Break};
ghost use Rattle.execution_session.specs.Moving.{at_end, back_alone_by, begins_step, goes_back, goes_on, is_step, next_in, previous_in, sought_back, sought_on, steps, steps_alone, steps_alone_by, steps_back, steps_by, told_at, told_or, why_in};
ghost use Rattle.execution_session.specs.Sessions.{state_of};

use crate::knowing::has_stopped;
use crate::session::{Session, Standing};
use execution_moments::{Past, TimePoint, TimeSide, Told};
use gdb_replies::Reason;
use gdb_talk::why;
use moments::Asked;
use pages::OutOfMemory;
use std::alloc::Global;

/// Breakpoints and faults are told, and each moment of a hart beside.
fn asked_in(alloc: Global, session: &Session, each: Option<u32>) -> Result<Asked, OutOfMemory>
    ensures each { IfOk result (λ a. a.each ≡ each) }
    ensures faults { IfOk result (λ a. a.faults ≡ true) }
    ensures stops { IfOk result (λ a. a.stops.items ≡ (state_of session.now).stops.software
        ++ (state_of session.now).stops.hardware) }
{
    let stops = session.stops.addresses(alloc)?;
    Ok(Asked {
        each,
        faults: true,
        stops,
    })
}

/// What is told next on the way on from a point.
fn next_in(
    alloc: Global,
    past: &Past,
    session: &Session,
    each: Option<u32>,
    here: TimePoint,
) -> Result<Option<Told>, OutOfMemory>
    ensures { IfOk result (λ x. x ≡ next_in (looked_at past.now) (state_of session.now) each here) }
{
    let asked = asked_in(alloc, session, each)?;
    past.next_told(alloc, &asked, &session.stops.watches, here)
}

/// What is told next on the way back from a point.
fn previous_in(
    alloc: Global,
    past: &Past,
    session: &Session,
    each: Option<u32>,
    here: TimePoint,
) -> Result<Option<Told>, OutOfMemory>
    ensures { IfOk result (λ x.
        x ≡ previous_in (looked_at past.now) (state_of session.now) each here) }
{
    let asked = asked_in(alloc, session, each)?;
    past.previous_told(alloc, &asked, &session.stops.watches, here)
}

/// Why one stands where this is told.
fn why_in(past: &Past, session: &Session, told: &Told) -> Reason
    ensures { result ≡ why_in (looked_at past.now) (state_of session.now) told.now }
{
    let there = past.course.hart_at(told.point.time, told.number);
    session.stops.why(told.watch, there)
}

/// It stands at what is told.
fn tell(past: &Past, session: &Session, told: &Told) -> Standing
    ensures { result ≡ told_at (looked_at past.now) (state_of session.now) told.now }
{
    let reason = why_in(past, session, told);
    session.standing.moved(told.point, reason, told.number)
}

/// Where nothing is told any more.
fn at_end(past: &Past, standing: Standing) -> Standing
    ensures { result ≡ at_end (looked_at past.now) standing }
{
    standing.moved(before(past.end()), Reason::End, standing.told)
}

/// Before the instruction at a time.
fn before(time: usize) -> TimePoint
    ensures { result ≡ at time Break }
{
    TimePoint {
        time,
        side: TimeSide::Break,
    }
}

/// It stands at what was found; elsewhere where nothing was.
fn tell_or(past: &Past, session: &Session, found: Option<Told>, otherwise: Standing) -> Standing
    ensures { result ≡ told_or (looked_at past.now) (state_of session.now) otherwise found }
{
    match found {
        Some(told) => tell(past, session, &told),
        None => otherwise,
    }
}

/// On to what is told next.
pub(crate) fn go_on(alloc: Global, past: &Past, session: &Session) -> Result<Standing, OutOfMemory>
    ensures { IfOk result (λ t. t ≡ goes_on (looked_at past.now) (state_of session.now)) }
{
    let found = next_in(alloc, past, session, None, session.standing.point)?;
    let end = at_end(past, session.standing);
    Ok(tell_or(past, session, found, end))
}

/// Back to what was told before.
pub(crate) fn go_back(
    alloc: Global,
    past: &Past,
    session: &Session,
) -> Result<Standing, OutOfMemory>
    ensures { IfOk result (λ t. t ≡ goes_back (looked_at past.now) (state_of session.now)) }
{
    let standing = session.standing;
    let found = previous_in(alloc, past, session, None, standing.point)?;
    let start = standing.moved(before(0), Reason::Begin, standing.told);
    Ok(tell_or(past, session, found, start))
}

/// Whether a step of a hart begins where this is told: at a moment of its own, where the session stands or nothing else is told.
fn begins_step(past: &Past, session: &Session, hart: u8, told: &Told) -> bool
    ensures { result ≡ begins_step (looked_at past.now) (state_of session.now) hart told.now }
{
    let time = told.point.time;
    told.number == hart
        && (!has_stopped(past, time, hart)
            && (time <= session.standing.point.time || is_step(why_in(past, session, told))))
}

fn is_step(reason: Reason) -> bool
    ensures { result ≡ is_step reason }
{
    match reason {
        Reason::Step => true,
        _ => false,
    }
}

/// From where a step of a hart is sought: where it stands at a moment of the hart's own, whatever was told there.
fn sought_on(past: &Past, here: TimePoint, hart: u8) -> TimePoint
    ensures { result ≡ sought_on (looked_at past.now) here hart }
{
    if past.course.is_of(hart, here.time) {
        TimePoint {
            time: here.time,
            side: TimeSide::Between,
        }
    } else {
        here
    }
}

/// A step of a hart, in which the others may go on: it ends before the hart's next instruction, or at what is told on the way.
pub(crate) fn step(
    alloc: Global,
    past: &Past,
    session: &Session,
    hart: u8,
) -> Result<Standing, OutOfMemory>
    ensures { IfOk result (λ t. t ≡ steps (looked_at past.now) (state_of session.now) hart) }
{
    let standing = session.standing;
    if has_stopped(past, standing.point.time, hart) {
        return Ok(standing.stays(Reason::End, hart));
    }
    let from = sought_on(past, standing.point, hart);
    let first = next_in(alloc, past, session, Some(u32::from(hart)), from)?;
    step_from(alloc, past, session, hart, first)
}

/// The same from the first thing that is told on the way.
fn step_from(
    alloc: Global,
    past: &Past,
    session: &Session,
    hart: u8,
    first: Option<Told>,
) -> Result<Standing, OutOfMemory>
    ensures { IfOk result (λ t.
        t ≡ steps_by (looked_at past.now) (state_of session.now) hart first) }
{
    let end = at_end(past, session.standing);
    let Some(first) = first else {
        return Ok(end);
    };
    if !begins_step(past, session, hart, &first) {
        return Ok(tell(past, session, &first));
    }
    let from = session.standing.point.or_later(first.point);
    let found = next_in(alloc, past, session, Some(u32::from(hart)), from)?;
    Ok(tell_or(past, session, found, end))
}

/// A step of a hart alone: it ends right behind the instruction, or at what watchpoints tell of it; of others nothing is told.
pub(crate) fn step_alone(
    alloc: Global,
    past: &Past,
    session: &Session,
    hart: u8,
) -> Result<Standing, OutOfMemory>
    ensures { IfOk result (λ t. t ≡ steps_alone (looked_at past.now) (state_of session.now) hart) }
{
    let standing = session.standing;
    if has_stopped(past, standing.point.time, hart) {
        return Ok(standing.stays(Reason::End, hart));
    }
    let own = past.course.next_of(standing.point.time, hart);
    step_alone_from(alloc, past, session, hart, own)
}

/// The same where the hart's next instruction is at this time.
fn step_alone_from(
    alloc: Global,
    past: &Past,
    session: &Session,
    hart: u8,
    own: Option<usize>,
) -> Result<Standing, OutOfMemory>
    requires within { IfSome own (λ own. own < length past.now.course.sequence.items) }
    ensures { IfOk result (λ t.
        t ≡ steps_alone_by (looked_at past.now) (state_of session.now) hart own) }
{
    let standing = session.standing;
    let Some(own) = own else {
        return Ok(at_end(past, standing));
    };
    let behind = TimePoint {
        time: own + 1,
        side: TimeSide::Between,
    };
    let alone = standing.moved(behind, Reason::Step, hart);
    let found = past.access_on(alloc, &session.stops.watches, standing.point, own)?;
    Ok(tell_or(past, session, found, alone))
}

/// A step back: of the hart alone that is to move so, if there is one, and else of the one that is asked about, in which the others go
/// back as well.
pub(crate) fn step_back(
    alloc: Global,
    past: &Past,
    session: &Session,
) -> Result<Standing, OutOfMemory>
    ensures { IfOk result (λ t. t ≡ steps_back (looked_at past.now) (state_of session.now)) }
{
    let standing = session.standing;
    if let Some(hart) = standing.moving {
        return step_back_alone(alloc, past, session, hart, standing.point.time);
    }
    let general = standing.general;
    let from = sought_back(past, standing.point, general);
    let found = previous_in(alloc, past, session, Some(u32::from(general)), from)?;
    let none = standing.stays(Reason::Begin, general);
    Ok(tell_or(past, session, found, none))
}

/// From where a step back of a hart is sought.
fn sought_back(past: &Past, here: TimePoint, hart: u8) -> TimePoint
    ensures { result ≡ sought_back (looked_at past.now) here hart }
{
    match here.side {
        TimeSide::After | TimeSide::Between => here,
        TimeSide::Break | TimeSide::Access => {
            if past.course.is_of(hart, here.time) {
                before(here.time)
            } else {
                here
            }
        }
    }
}

/// A step back of a hart alone, to its last instruction before a time.
fn step_back_alone(
    alloc: Global,
    past: &Past,
    session: &Session,
    hart: u8,
    time: usize,
) -> Result<Standing, OutOfMemory>
    ensures { IfOk result (λ t. t ≡ back_alone_by (looked_at past.now) (state_of session.now) hart
        (previous_of past.now.course time hart)) }
{
    let standing = session.standing;
    let Some(own) = past.course.previous_of(time, hart) else {
        return Ok(standing.stays(Reason::Begin, hart));
    };
    let reason = why(&[], &[], past.course.hart_at(own, hart));
    let alone = standing.moved(before(own), reason, hart);
    let found = past.access_back(alloc, &session.stops.watches, standing.point, own + 1)?;
    Ok(tell_or(past, session, found, alone))
}
