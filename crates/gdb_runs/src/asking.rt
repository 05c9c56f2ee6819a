//! What is asked for, and the nearest point at which it is told.

ghost use Rattle.std.specs.Prelude.{◌≡◌, ◌≤◌, length, Some, IfOk, IfSome};
ghost use Rattle.machine.specs.Machine.{Running};
ghost use Rattle.machine.specs.Untraced.{IsUntraced};
ghost use Rattle.gdb_runs.specs.Wanted.{AsksFor, Finds, Wanted, all_told, nearest_of, only_of, watched_of};
ghost use Rattle.gdb_runs.specs.Sessions.{IsWithin, OfRun, state_of};
ghost use Rattle.round_schedule.specs.Bounds.{AreWorkers};

use crate::debugged::Debugged;
use crate::session::Session;
use pages::OutOfMemory;
use past_harts::Point;
use round_steps::{Asked, Telling, Told};
use std::alloc::Global;
use std::sync::Wait;
use std::thread::Threads;
use watching::Way;

/// All that is told in a session, and each moment of a hart beside.
pub fn all_told(alloc: Global, session: &Session, each: Option<u32>) -> Result<Telling, OutOfMemory>
    ensures { IfOk result (λ t. AsksFor (all_told (state_of session.now) each) t) }
{
    let stops = session.stops.addresses(alloc)?;
    let watches = Vec::from_slice(alloc, session.stops.watches.as_slice())?;
    Ok(Telling {
        asked: Asked {
            each,
            faults: true,
            stops,
        },
        watches,
    })
}

/// The moments of a hart, and what watchpoints tell of.
pub fn watched_of(alloc: Global, session: &Session, hart: u32) -> Result<Telling, OutOfMemory>
    ensures { IfOk result (λ t. AsksFor (watched_of (state_of session.now) hart) t) }
{
    let mut telling = only_of(alloc, hart);
    telling.watches = Vec::from_slice(alloc, session.stops.watches.as_slice())?;
    Ok(telling)
}

/// The moments of a hart, and nothing else.
pub fn only_of(alloc: Global, hart: u32) -> Telling
    ensures { AsksFor (only_of hart) result }
{
    Telling {
        asked: Asked {
            each: Some(hart),
            faults: false,
            stops: Vec::new(alloc),
        },
        watches: Vec::new(alloc),
    }
}

/// The nearest point at which this is told, one way. It may wait.
pub fn find<R: Threads + Wait + Sync>(
    rt: &R,
    run: &mut Debugged,
    way: Way,
    telling: Telling,
    from: &Point,
) -> Result<Option<Told>, OutOfMemory>
    requires within { from.now.moment.rounds ≤ run.old.timeline.rounds }
    requires workers { AreWorkers run.old.workers }
    requires start { run.old.start ≡ run.old.timeline.start }
    requires fresh { run.old.start.rounds ≡ 0 }
    requires run { (m : Running) × IsUntraced m run.old.start }
    requires harts { run.old.harts ≡ length run.old.start.harts }
    ensures stays { run.new ≡ run.old }
    ensures finds { OfRun run.old (λ r. (w : Wanted) → AsksFor w telling →
        IfOk result (λ x. Finds r way w from.now x)) }
    ensures within { IfOk result (λ x. IfSome x (λ told. IsWithin run.old told.point)) }
{
    let found = nearest(rt, run, way, &telling, from);
    drop(telling);
    found
}

/// The same, where what is to be told is lent.
fn nearest<R: Threads + Wait + Sync>(
    rt: &R,
    run: &mut Debugged,
    way: Way,
    telling: &Telling,
    from: &Point,
) -> Result<Option<Told>, OutOfMemory>
    requires within { from.now.moment.rounds ≤ run.old.timeline.rounds }
    requires workers { AreWorkers run.old.workers }
    ensures stays { run.new ≡ run.old }
    ensures nearest { OfRun run.old (λ r. IfOk result (λ x.
        x ≡ nearest_of r way telling.now from.now)) }
{
    match way {
        Way::On => run.timeline.next_point(rt, telling, from, run.workers),
        Way::Back => run.timeline.previous_point(rt, telling, from, run.workers),
    }
}
