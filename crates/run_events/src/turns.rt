//! The pcs of events that no part of the parallel phase has: those of serial turns.

ghost use Rattle.std.specs.Prelude.{◌≡◌, ◌≤◌, ◌<◌, ◌+◌, ◌++◌, ◌∷◌, ◌^◌, [], IfOk, IfErr, IfSome, OnOk, is_some, map, option_map, slice_get};
ghost use Rattle.std.specs.List.{list_all};
ghost use Rattle.host_io.specs.declared.error.RunError.TheVariants as refusals;
ghost use Rattle.hart_step.specs.Numbers.{minus};
ghost use Rattle.hart_step.specs.Words.{words_of};
ghost use Rattle.machine.specs.Machine.{Running};
ghost use Rattle.guest_turns.specs.TurnHarts.{turns_in_round};
ghost use Rattle.machine.specs.Untraced.{IsUntraced};
ghost use Rattle.round_planner.specs.Quotas.{quotas_of};
ghost use Rattle.run_events.specs.Parts.{pc_in_parts};
ghost use Rattle.run_events.specs.Pcs.{done_by, pc_in_next};
ghost use Rattle.round_schedule.specs.Bounds.{AreWorkers};

use hart_step::Hart;
use host_io::RunError;
use machine::UntracedMachine;
use past_harts::{hart_after, harts_in_turns};
use round_schedule::Event;
use std::sync::Wait;
use std::thread::Threads;

/// Adds the pc of each of these events of the next round, of which those are given that the parts of the parallel phase have. Where others
/// are left, the round is done once.
pub(crate) fn add_pcs<R: Threads + Wait + Sync>(
    rt: &R,
    machine: &mut UntracedMachine,
    events: &[Event],
    found: &[Option<u64>],
    workers: u32,
    pcs: &mut Vec<Option<u64>>,
) -> Result<(), RunError>
    requires workers { AreWorkers workers }
    requires run { (m : Running) × IsUntraced m machine.old }
    requires rounds { machine.old.rounds + 1 < 2 ^ 32 }
    requires found { found.now ≡ map (pc_in_parts machine.old) events.now }
    ensures stays { machine.new ≡ machine.old }
    ensures pcs { (m : Running) → IsUntraced m machine.old →
        OnOk result (pcs.new.items ≡ pcs.old.items ++ map (pc_in_next m) events.now) }
    ensures refused { IfErr result (λ e. e ≡ refusals.OutOfMemory) }
{
    if are_found(found) {
        return add_found(found, pcs);
    }
    let copy = machine.share()?;
    let turns = harts_in_turns(rt, copy, workers)?;
    add_each(rt, machine, &turns, events, found, workers, pcs)
}

/// The same, given the harts along the round's turns.
fn add_each<R: Threads + Wait + Sync>(
    rt: &R,
    machine: &mut UntracedMachine,
    turns: &[Vec<Hart>],
    events: &[Event],
    found: &[Option<u64>],
    workers: u32,
    pcs: &mut Vec<Option<u64>>,
) -> Result<(), RunError>
    requires workers { AreWorkers workers }
    requires run { (m : Running) × IsUntraced m machine.old }
    requires rounds { machine.old.rounds + 1 < 2 ^ 32 }
    requires found { found.now ≡ map (pc_in_parts machine.old) events.now }
    requires turns { (m : Running) → IsUntraced m machine.old → map (λ xs. xs.items) turns.now ≡
        turns_in_round (words_of m.code) m.plan.budget (quotas_of m.plan) m.state }
    ensures stays { machine.new ≡ machine.old }
    ensures pcs { (m : Running) → IsUntraced m machine.old →
        OnOk result (pcs.new.items ≡ pcs.old.items ++ map (pc_in_next m) events.now) }
    ensures refused { IfErr result (λ e. e ≡ refusals.OutOfMemory) }
{
    for (number, event) in events.iter().enumerate() {
        let pc = pc_of_event(rt, machine, turns, event, found[number], workers)?;
        add(pcs, pc)?;
    }
    Ok(())
}

/// Whether a part has each.
fn are_found(found: &[Option<u64>]) -> bool
    ensures { result ≡ list_all (λ pc. is_some pc) found.now }
{
    found.iter().all(|pc| pc.is_some())
}

/// Adds the pcs of events that all have one.
fn add_found(found: &[Option<u64>], pcs: &mut Vec<Option<u64>>) -> Result<(), RunError>
    ensures pcs { OnOk result (pcs.new.items ≡ pcs.old.items ++ found.now) }
    ensures refused { IfErr result (λ e. e ≡ refusals.OutOfMemory) }
{
    match pcs.extend_from_slice(found) {
        Ok(()) => Ok(()),
        Err(_) => Err(RunError::OutOfMemory),
    }
}

/// The pc of an event of the next round: the one that a part has, or that of the hart along its turn. Where neither has one, as it is with
/// events that are of no trace alone, the round is done up to there.
fn pc_of_event<R: Threads + Wait + Sync>(
    rt: &R,
    machine: &mut UntracedMachine,
    turns: &[Vec<Hart>],
    event: &Event,
    found: Option<u64>,
    workers: u32,
) -> Result<Option<u64>, RunError>
    requires workers { AreWorkers workers }
    requires run { (m : Running) × IsUntraced m machine.old }
    requires rounds { machine.old.rounds + 1 < 2 ^ 32 }
    requires found { found ≡ pc_in_parts machine.old event.now }
    requires turns { (m : Running) → IsUntraced m machine.old → map (λ xs. xs.items) turns.now ≡
        turns_in_round (words_of m.code) m.plan.budget (quotas_of m.plan) m.state }
    ensures stays { machine.new ≡ machine.old }
    ensures pc { (m : Running) → IsUntraced m machine.old →
        IfOk result (λ pc. pc ≡ pc_in_next m event.now) }
    ensures refused { IfErr result (λ e. e ≡ refusals.OutOfMemory) }
{
    if found.is_some() {
        return Ok(found);
    }
    match pc_in_turns(machine, turns, event) {
        Some(pc) => Ok(pc),
        None => pc_asked(rt, machine, event, workers),
    }
}

/// The pc of an event of the next round by the harts along its turns, none where its hart does no such instruction. It isn't told where
/// there is no such hart, or the event comes before its turn.
fn pc_in_turns(machine: &UntracedMachine, turns: &[Vec<Hart>], event: &Event) -> Option<Option<u64>>
    requires rounds { machine.now.rounds + 1 < 2 ^ 32 }
    requires run { (m : Running) × IsUntraced m machine.now }
    requires turns { (m : Running) → IsUntraced m machine.now → map (λ xs. xs.items) turns.now ≡
        turns_in_round (words_of m.code) m.plan.budget (quotas_of m.plan) m.state }
    ensures { (m : Running) → IsUntraced m machine.now →
        IfSome result (λ pc. pc ≡ pc_in_next m event.now) }
{
    let number = usize::from(event.hart);
    let harts = machine.harts();
    if number >= harts.len() {
        return None;
    }
    // At most 1,000,000.
    let _quota = machine
        .plan()
        .quota(machine.rounds() + 1, u32::from(event.hart));
    let Some(before) = harts.get(number) else {
        return None;
    };
    let Some(turn) = turns.get(number) else {
        return None;
    };
    let Some(first) = turn.first() else {
        return None;
    };
    let begun = done_since(*before, *first);
    let count = event.access.place().saturating_sub(before.done);
    if count < begun {
        return None;
    }
    Some(pc_of(hart_along(turn, (count - begun) as usize)))
}

/// A hart along a turn, by its number there.
fn hart_along(turn: &[Hart], number: usize) -> Option<Hart>
    ensures { result ≡ slice_get turn.now number }
{
    turn.get(number).copied()
}

/// How many instructions a hart did from one time to another, by its count of them.
fn done_since(before: Hart, after: Hart) -> u64
    ensures count { result ≡ minus after.done before.done }
    ensures fits { before.done < 2 ^ 64 }
{
    after.done.wrapping_sub(before.done)
}

/// The pc of an event of the next round, which is done up to there.
fn pc_asked<R: Threads + Wait + Sync>(
    rt: &R,
    machine: &mut UntracedMachine,
    event: &Event,
    workers: u32,
) -> Result<Option<u64>, RunError>
    requires workers { AreWorkers workers }
    requires run { (m : Running) × IsUntraced m machine.old }
    requires rounds { machine.old.rounds + 1 < 2 ^ 32 }
    ensures stays { machine.new ≡ machine.old }
    ensures pc { (m : Running) → IsUntraced m machine.old →
        IfOk result (λ pc. pc ≡ pc_in_next m event.now) }
    ensures refused { IfErr result (λ e. e ≡ refusals.OutOfMemory) }
{
    let hart = u32::from(event.hart);
    let done = done_by(machine, hart);
    let count = event.access.place().saturating_sub(done);
    let copy = machine.share()?;
    let found = hart_after(rt, copy, hart, count, workers)?;
    Ok(pc_of(found))
}

/// How many instructions a hart has done, and 0 where there is no such hart.
pub(crate) fn done_by(machine: &UntracedMachine, hart: u32) -> u64
    ensures { result ≡ done_by machine.now.harts hart }
{
    match machine.harts().get(hart as usize) {
        Some(hart) => hart.done,
        None => 0,
    }
}

/// Adds a pc.
pub(crate) fn add(pcs: &mut Vec<Option<u64>>, pc: Option<u64>) -> Result<(), RunError>
    ensures pcs { OnOk result (pcs.new.items ≡ pcs.old.items ++ pc ∷ []) }
    ensures refused { IfErr result (λ e. e ≡ refusals.OutOfMemory) }
{
    match pcs.push(pc) {
        Ok(()) => Ok(()),
        Err(_) => Err(RunError::OutOfMemory),
    }
}

/// The pc of a hart that there is.
fn pc_of(hart: Option<Hart>) -> Option<u64>
    ensures { result ≡ option_map (λ h. h.pc) hart }
{
    match hart {
        Some(hart) => Some(hart.pc),
        None => None,
    }
}
