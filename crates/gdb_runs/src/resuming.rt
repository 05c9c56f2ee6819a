//! Where a run stands at what is told next.

ghost use Rattle.std.specs.Prelude.{◌≡◌, IfOk};
ghost use Rattle.gdb_runs.specs.Standings.{end_of, told_at};
ghost use Rattle.gdb_runs.specs.Sessions.{IsReady, IsWithin, OfRun, state_of};

use crate::debugged::Debugged;
use crate::session::{Session, Standing, start_of};
use gdb_replies::Reason;
use pages::OutOfMemory;
use round_steps::Told;
use std::sync::Wait;
use std::thread::Threads;
use watching::Way;

/// Where it stands where nothing is told any more: behind the last round, or at the first one.
pub fn end_of(run: &Debugged, standing: Standing, way: Way) -> Standing
    requires ready { IsReady run.now standing }
    ensures end { result ≡ end_of run.now.timeline.rounds standing way }
    ensures ready { IsReady run.now result }
{
    match way {
        Way::On => standing.moved(start_of(run.timeline.rounds()), Reason::End, standing.told),
        Way::Back => standing.moved(start_of(0), Reason::Begin, standing.told),
    }
}

/// Where it stands at what is told. It may wait.
pub fn tell<R: Threads + Wait + Sync>(
    rt: &R,
    run: &mut Debugged,
    session: &Session,
    told: Told,
) -> Result<Standing, OutOfMemory>
    requires ready { IsReady run.old session.now.standing }
    requires within { IsWithin run.old told.point }
    ensures stays { run.new ≡ run.old }
    ensures standing { OfRun run.old (λ r.
        IfOk result (λ t. t ≡ told_at r (state_of session.now) told)) }
    ensures ready { IfOk result (λ t. IsReady run.old t) }
{
    let number = told.point.moment.place.hart;
    let there = run.hart_at(rt, &told.point, number)?;
    let reason = session.stops.why(told.watch, there);
    Ok(session.standing.moved(told.point, reason, number))
}
