//! Where a step ends, by what is told first.

ghost use Rattle.std.specs.Prelude.{◌≡◌, ◌≤◌, Some, IfOk, IfSome};
ghost use Rattle.gdb_runs.specs.Wanted.{Finds, all_told};
ghost use Rattle.gdb_runs.specs.Standings.{told_or};
ghost use Rattle.gdb_runs.specs.Sessions.{IsReady, IsWithin, OfRun, state_of};

use gdb_runs::{Debugged, Session, Standing, all_told, find, tell};
use pages::OutOfMemory;
use past_harts::Point;
use round_steps::Told;
use std::alloc::Global;
use std::sync::Wait;
use std::thread::Threads;
use watching::Way;

/// The nearest point, one way, at which something is told in a session, and each moment of a hart beside. It may wait.
pub(crate) fn find_told<R: Threads + Wait + Sync>(
    rt: &R,
    alloc: Global,
    run: &mut Debugged,
    session: &Session,
    way: Way,
    hart: u32,
    from: &Point,
) -> Result<Option<Told>, OutOfMemory>
    requires ready { IsReady run.old session.now.standing }
    requires within { from.now.moment.rounds ≤ run.old.timeline.rounds }
    ensures stays { run.new ≡ run.old }
    ensures finds { OfRun run.old (λ r. IfOk result (λ x.
        Finds r way (all_told (state_of session.now) (Some hart)) from.now x)) }
    ensures within { IfOk result (λ x. IfSome x (λ told. IsWithin run.old told.point)) }
{
    let telling = all_told(alloc, session, Some(hart))?;
    find(rt, run, way, telling, from)
}

/// Where it stands at what was found; elsewhere where nothing was.
pub(crate) fn tell_or<R: Threads + Wait + Sync>(
    rt: &R,
    run: &mut Debugged,
    session: &Session,
    found: Option<Told>,
    otherwise: Standing,
) -> Result<Standing, OutOfMemory>
    requires ready { IsReady run.old session.now.standing }
    requires otherwise { IsReady run.old otherwise }
    requires within { IfSome found (λ x. IsWithin run.old x.point) }
    ensures stays { run.new ≡ run.old }
    ensures standing { OfRun run.old (λ r.
        IfOk result (λ t. t ≡ told_or r (state_of session.now) otherwise found)) }
    ensures ready { IfOk result (λ t. IsReady run.old t) }
{
    match found {
        Some(told) => tell(rt, run, session, told),
        None => Ok(otherwise),
    }
}
