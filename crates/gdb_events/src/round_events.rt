//! The events of a round.

ghost use Rattle.std.specs.Prelude.{◌≡◌, ◌≤◌, ◌<◌, ◌+◌, ◌^◌, ◌++◌, IfOk, OnOk};
ghost use Rattle.machine.specs.Machine.{Running, after_rounds};
ghost use Rattle.machine.specs.Untraced.{IsAfter, IsUntraced};
ghost use Rattle.gdb_events.specs.Rounds.{is_parallel, round_events};
ghost use Rattle.round_schedule.specs.Bounds.{AreWorkers};

use machine::UntracedMachine;
use pages::OutOfMemory;
use past_harts::run_noting;
use round_schedule::{Event, Phase};
use std::alloc::Global;
use std::sync::Wait;
use std::thread::Threads;
use timelines::{Timeline, of_memory};
use trace::Trace;

/// The events of the round after so many of a run.
pub(crate) fn events_of_round<R: Threads + Wait + Sync>(
    rt: &R,
    alloc: Global,
    timeline: &mut Timeline,
    rounds: u32,
    workers: u32,
) -> Result<Vec<Event>, OutOfMemory>
    requires within { rounds ≤ timeline.old.rounds }
    requires rounds { rounds + 1 < 2 ^ 32 }
    requires workers { AreWorkers workers }
    requires run { (m : Running) × IsUntraced m timeline.old.start }
    ensures stays { timeline.new ≡ timeline.old }
    ensures events { (m : Running) → IsUntraced m timeline.old.start → IfOk result (λ v. v.items ≡
        round_events (after_rounds rounds m)) }
{
    let mut machine = timeline.machine_at(rt, rounds, workers)?;
    let events = next_events(rt, alloc, &mut machine, workers);
    drop(machine);
    events
}

/// The events of the next round of a machine, which does that round.
pub(crate) fn next_events<R: Threads + Wait + Sync>(
    rt: &R,
    alloc: Global,
    machine: &mut UntracedMachine,
    workers: u32,
) -> Result<Vec<Event>, OutOfMemory>
    requires run { (m : Running) × IsUntraced m machine.old }
    requires rounds { machine.old.rounds + 1 < 2 ^ 32 }
    requires workers { AreWorkers workers }
    ensures runs { OnOk result (IsAfter 1 machine.old machine.new) }
    ensures counted { OnOk result (machine.new.rounds ≡ machine.old.rounds + 1) }
    ensures events { (m : Running) → IsUntraced m machine.old →
        IfOk result (λ v. v.items ≡ round_events m) }
    ensures trace { (m : Running) → IsUntraced m machine.old → OnOk result
        ((after_rounds 1 m).state.trace ≡ m.state.trace ++ round_events m) }
{
    let mut trace = Trace::new(alloc, Vec::new(alloc));
    of_memory(run_noting(rt, machine, 1, workers, &mut trace))?;
    let events = trace.to_vec(alloc)?;
    Ok(events)
}

/// Whether a phase is the parallel one.
pub(crate) fn is_parallel(phase: Phase) -> bool
    ensures { result ≡ is_parallel phase }
{
    match phase {
        Phase::Parallel => true,
        Phase::Serial => false,
    }
}
