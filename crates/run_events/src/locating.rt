ghost use Rattle.std.specs.Prelude.{◌≡◌, ◌≤◌, ◌-◌, ◌++◌, ◌==◌, All, None, IfOk, IfErr, OnOk, map, true};
ghost use Rattle.host_io.specs.declared.error.RunError.TheVariants as refusals;
ghost use Rattle.machine.specs.Machine.{Running, after_rounds};
ghost use Rattle.machine.specs.Untraced.{IsUntraced};
ghost use Rattle.run_events.specs.Pcs.{IsAfterRounds, pc_before};
ghost use Rattle.round_schedule.specs.Bounds.{AreWorkers};

use crate::parts::pcs_in_parts;
use crate::stretches::{count_of_round, events_from};
use crate::turns::{add, add_pcs};
use host_io::RunError;
use machine::UntracedMachine;
use round_schedule::Event;
use std::alloc::Global;
use std::sync::Wait;
use std::thread::Threads;

/// For each of these events of a run of so many rounds the pc of its instruction: that of its hart before it. `None` where the hart did no
/// such instruction in the event's round. It begins with a machine of the run that did none of the events' rounds. Where the events are in
/// the order of the trace, the run is gone through once; in each round with events the parts of the harts that have some are walked over
/// once more, up to the last of them. It may wait.
///
/// # Errors
///
/// `OutOfMemory` alone.
pub fn pcs_of_run<R: Threads + Wait + Sync>(
    rt: &R,
    alloc: Global,
    start: &mut UntracedMachine,
    rounds: u32,
    events: &[Event],
    workers: u32,
) -> Result<Vec<Option<u64>>, RunError>
    requires workers { AreWorkers workers }
    requires run { (m : Running) × IsUntraced (after_rounds start.old.rounds m) start.old }
    requires later { All (IsAfterRounds start.old.rounds) events.now }
    ensures pcs { (m : Running) → IsUntraced (after_rounds start.old.rounds m) start.old →
        IfOk result (λ v. v.items ≡ map (pc_before rounds m) events.now) }
    ensures stays { start.new ≡ start.old }
    ensures refused { IfErr result (λ e. e ≡ refusals.OutOfMemory) }
{
    let mut machine = start.share()?;
    let mut pcs = Vec::new(alloc);
    let mut done = 0;
    while done < events.len() {
        let left = events_from(events, done);
        let round = left[0].round;
        let count = count_of_round(left, round);
        go_back(start, &mut machine, round)?;
        add_of_round(
            rt,
            &mut machine,
            rounds,
            round,
            &left[..count],
            workers,
            &mut pcs,
        )?;
        done += count;
    }
    Ok(pcs)
}

/// Goes back to where the run was begun where a machine of it has done this round already.
fn go_back(
    start: &mut UntracedMachine,
    machine: &mut UntracedMachine,
    round: u32,
) -> Result<(), RunError>
    requires { start.old.rounds ≤ round - 1 }
    ensures start { start.new ≡ start.old }
    ensures before { OnOk result (machine.new.rounds ≤ round - 1) }
    ensures way { (m : Running) → IsUntraced (after_rounds start.old.rounds m) start.old →
        IsUntraced (after_rounds machine.old.rounds m) machine.old →
        OnOk result (IsUntraced (after_rounds machine.new.rounds m) machine.new) }
    ensures refused { IfErr result (λ e. e ≡ refusals.OutOfMemory) }
{
    if machine.rounds() < round {
        return Ok(());
    }
    *machine = start.share()?;
    Ok(())
}

/// Adds the pcs of events of one round, from a machine of the run that has not done it. It is run up to there.
fn add_of_round<R: Threads + Wait + Sync>(
    rt: &R,
    machine: &mut UntracedMachine,
    rounds: u32,
    round: u32,
    events: &[Event],
    workers: u32,
    pcs: &mut Vec<Option<u64>>,
) -> Result<(), RunError>
    requires workers { AreWorkers workers }
    requires run { (m : Running) × IsUntraced m machine.old }
    requires before { machine.old.rounds ≤ round - 1 }
    requires one { All (λ e. (e.round == round) ≡ true) events.now }
    ensures pcs { (m : Running) → IsUntraced (after_rounds machine.old.rounds m) machine.old →
        OnOk result (pcs.new.items ≡ pcs.old.items ++ map (pc_before rounds m) events.now) }
    ensures way { (m : Running) → IsUntraced (after_rounds machine.old.rounds m) machine.old →
        OnOk result (IsUntraced (after_rounds machine.new.rounds m) machine.new) }
    ensures refused { IfErr result (λ e. e ≡ refusals.OutOfMemory) }
{
    if round == 0 {
        return add_none(events, pcs);
    }
    if round > rounds {
        return add_none(events, pcs);
    }
    let left = (round - 1).saturating_sub(machine.rounds());
    machine.run(rt, left, workers)?;
    let found = pcs_in_parts(machine, events)?;
    add_pcs(rt, machine, events, &found, workers, pcs)
}

/// Adds that none of these events has a pc.
fn add_none(events: &[Event], pcs: &mut Vec<Option<u64>>) -> Result<(), RunError>
    ensures pcs { OnOk result (pcs.new.items ≡ pcs.old.items ++ map (λ _. None) events.now) }
    ensures refused { IfErr result (λ e. e ≡ refusals.OutOfMemory) }
{
    let mut done = 0;
    while done < events.len() {
        add(pcs, None)?;
        done += 1;
    }
    Ok(())
}
