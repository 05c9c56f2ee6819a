//! The moments at which a user can have a run stop.

ghost use Rattle.std.specs.Prelude.{◌≡◌, ◌<◌, ◌≤◌, IfOk};
ghost use Rattle.gdb_resumes.specs.Goals.{IsAtCount, IsGoalWithin, IsInRound, IsPlaceOf, goal_at_round, goal_if, is_at, is_there, place_from};
ghost use Rattle.gdb_runs.specs.Sessions.{OfRun};
ghost use Rattle.round_schedule.specs.Bounds.{AreWorkers};

use gdb_runs::{Debugged, only_of, start_of};
use pages::OutOfMemory;
use past_harts::{Moment, Place, Point, Side};
use round_schedule::Phase;
use round_steps::Told;
use std::alloc::Global;
use std::sync::Wait;
use std::thread::Threads;

/// Where a run is to stop, or why it can't.
#[derive(Clone, Copy)]
pub enum Goal {
    /// There.
    At(Point),
    /// Behind the last round.
    End,
    /// There is no such round.
    NoRound,
    /// There is no such hart.
    NoHart,
    /// The hart isn't there in that round.
    NoPlace,
}

/// The beginning of a round, by its number from 1 on.
pub fn goal_at_round(run: &Debugged, round: u64) -> Goal
    requires harts { 1 ≤ run.now.harts }
    ensures goal { result ≡ goal_at_round run.now.timeline.rounds round }
    ensures within { IsGoalWithin run.now result }
{
    if is_there(round, run.timeline.rounds()) {
        Goal::At(start_of((round - 1) as u32))
    } else {
        Goal::NoRound
    }
}

/// Whether there is a round, of so many.
fn is_there(round: u64, rounds: u32) -> bool
    ensures { result ≡ is_there round rounds }
{
    1 <= round && round <= u64::from(rounds)
}

/// Where a hart has done so many instructions since the run began, in a round by its number from 1 on. It may wait.
pub fn goal_at_place<R: Threads + Wait + Sync>(
    rt: &R,
    alloc: Global,
    run: &mut Debugged,
    round: u64,
    hart: u64,
    place: u64,
) -> Result<Goal, OutOfMemory>
    requires workers { AreWorkers run.old.workers }
    ensures stays { run.new ≡ run.old }
    ensures goal { OfRun run.old (λ r. IfOk result (λ g. IsPlaceOf r round hart place g)) }
    ensures within { IfOk result (λ g. IsGoalWithin run.old g) }
{
    if !is_there(round, run.timeline.rounds()) {
        return Ok(Goal::NoRound);
    }
    if hart >= u64::from(run.harts) {
        return Ok(Goal::NoHart);
    }
    goal_in_round(rt, alloc, run, (round - 1) as u32, hart as u32, place)
}

/// The same of a hart that there is, in the round after so many others.
fn goal_in_round<R: Threads + Wait + Sync>(
    rt: &R,
    alloc: Global,
    run: &mut Debugged,
    rounds: u32,
    hart: u32,
    place: u64,
) -> Result<Goal, OutOfMemory>
    requires workers { AreWorkers run.old.workers }
    requires within { rounds < run.old.timeline.rounds }
    requires hart { hart < run.old.harts }
    ensures stays { run.new ≡ run.old }
    ensures goal { OfRun run.old (λ r. IfOk result (λ g. IsInRound r rounds hart place g)) }
    ensures within { IfOk result (λ g. IsGoalWithin run.old g) }
{
    let Some(begun) = run.hart_at(rt, &start_of(rounds), hart)? else {
        return Ok(Goal::NoPlace);
    };
    if begun.done <= place {
        goal_at_count(rt, alloc, run, rounds, hart, place - begun.done)
    } else {
        Ok(Goal::NoPlace)
    }
}

/// The moment of a hart after so many of its instructions of a round.
fn goal_at_count<R: Threads + Wait + Sync>(
    rt: &R,
    alloc: Global,
    run: &mut Debugged,
    rounds: u32,
    hart: u32,
    count: u64,
) -> Result<Goal, OutOfMemory>
    requires workers { AreWorkers run.old.workers }
    requires within { rounds < run.old.timeline.rounds }
    requires hart { hart < run.old.harts }
    ensures stays { run.new ≡ run.old }
    ensures goal { OfRun run.old (λ r. IfOk result (λ g. IsAtCount r rounds hart count g)) }
    ensures within { IfOk result (λ g. IsGoalWithin run.old g) }
{
    let telling = only_of(alloc, hart);
    let from = place_from(rounds, hart, count);
    let workers = run.workers;
    let found = run
        .timeline
        .earliest_in(rt, rounds, 1, &telling, &from, workers)?;
    Ok(goal_if(rounds, hart, count, found))
}

/// Where that moment is sought from.
fn place_from(rounds: u32, hart: u32, count: u64) -> Point
    ensures { result ≡ place_from rounds hart count }
{
    Point {
        moment: Moment {
            rounds,
            place: Place {
                phase: Phase::Parallel,
                hart,
                count,
            },
        },
        side: Side::After,
    }
}

/// What was found, where it is that moment.
fn goal_if(rounds: u32, hart: u32, count: u64, found: Option<Told>) -> Goal
    ensures { result ≡ goal_if rounds hart count found }
{
    match found {
        Some(told) => {
            if is_at(rounds, hart, count, &told.point.moment) {
                Goal::At(told.point)
            } else {
                Goal::NoPlace
            }
        }
        None => Goal::NoPlace,
    }
}

/// Whether a moment is the one of a hart after so many of its instructions of a round.
fn is_at(rounds: u32, hart: u32, count: u64, moment: &Moment) -> bool
    ensures { result ≡ is_at rounds hart count moment.now }
{
    moment.rounds == rounds && moment.place.hart == hart && moment.place.count == count
}
