//! Steps of one hart that are repeated in a range of addresses.

ghost use Rattle.std.specs.Prelude.{◌≡◌, ◌<◌, IfOk};
ghost use Rattle.gdb_steps.specs.Steps.{StepsIn, is_in, is_step, steps_further};
ghost use Rattle.gdb_runs.specs.Sessions.{IsReady, OfRun, state_of};

use crate::stepping::step;
use gdb_replies::Reason;
use gdb_runs::{Debugged, Session, Standing, steps_in_round};
use gdb_talk::is_stopped;
use hart_step::Hart;
use pages::OutOfMemory;
use std::alloc::Global;
use std::sync::Wait;
use std::thread::Threads;

/// Steps of a hart, in which the others may go on, as long as its pc is at `low` or behind it and before `high`, and nothing else is told:
/// one, and no more than come to some 4,000,000 instructions. It may wait.
pub fn step_in<R: Threads + Wait + Sync>(
    rt: &R,
    alloc: Global,
    run: &mut Debugged,
    session: &mut Session,
    hart: u32,
    low: u64,
    high: u64,
) -> Result<Standing, OutOfMemory>
    requires ready { IsReady run.old session.old.standing }
    requires hart { hart < run.old.harts }
    ensures stays { run.new ≡ run.old }
    ensures session { session.new ≡ session.old }
    ensures steps { OfRun run.old (λ r. IfOk result (λ t.
        StepsIn r low high hart (state_of session.old) t)) }
    ensures ready { IfOk result (λ t. IsReady run.old t) }
{
    let before = session.standing;
    let stood = step_further(rt, alloc, run, session, hart, low, high);
    session.standing = before;
    stood
}

/// The same, with the session going along.
fn step_further<R: Threads + Wait + Sync>(
    rt: &R,
    alloc: Global,
    run: &mut Debugged,
    session: &mut Session,
    hart: u32,
    low: u64,
    high: u64,
) -> Result<Standing, OutOfMemory>
    requires ready { IsReady run.old session.old.standing }
    requires hart { hart < run.old.harts }
    ensures stays { run.new ≡ run.old }
    ensures session { session.new ≡ record session.old { standing = session.new.standing } }
    ensures steps { OfRun run.old (λ r. IfOk result (λ t.
        StepsIn r low high hart (state_of session.old) t)) }
    ensures ready { IfOk result (λ t. IsReady run.old t) }
{
    let most = steps_in_round(run.start.plan(), session.standing.point.moment.rounds);
    for _i in 0..most {
        let standing = step(rt, alloc, run, session, hart)?;
        session.standing = standing;
        if !steps_further(rt, run, standing, hart, low, high)? {
            return Ok(standing);
        }
    }
    Ok(session.standing)
}

/// Whether a step that ended here is to be followed by another one.
fn steps_further<R: Threads + Wait + Sync>(
    rt: &R,
    run: &mut Debugged,
    standing: Standing,
    hart: u32,
    low: u64,
    high: u64,
) -> Result<bool, OutOfMemory>
    requires ready { IsReady run.old standing }
    ensures stays { run.new ≡ run.old }
    ensures further { OfRun run.old (λ r. IfOk result (λ b.
        b ≡ steps_further r low high hart standing)) }
{
    if standing.told != hart || !is_step(standing.reason) {
        return Ok(false);
    }
    let there = run.hart_at(rt, &standing.point, hart)?;
    Ok(!is_stopped(there) && is_in(there, low, high))
}

/// Whether a hart's pc is in a range.
fn is_in(hart: Option<Hart>, low: u64, high: u64) -> bool
    ensures { result ≡ is_in low high hart }
{
    match hart {
        Some(hart) => low <= hart.pc && hart.pc < high,
        None => false,
    }
}

/// Whether a step's end is the reason.
fn is_step(reason: Reason) -> bool
    ensures { result ≡ is_step reason }
{
    match reason {
        Reason::Step => true,
        Reason::Breakpoint
        | Reason::HardwareBreakpoint
        | Reason::Watch(_)
        | Reason::ReadWatch(_)
        | Reason::AccessWatch(_)
        | Reason::Signal(_)
        | Reason::Begin
        | Reason::End => false,
    }
}
