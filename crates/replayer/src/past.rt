ghost use Rattle.std.specs.Prelude.{◌≡◌, ◌≤◌, ◌<◌, ◌+◌, ◌^◌, ◌⊎◌, IfOk, IfErr, MatchOption};
ghost use Rattle.round_planner.specs.Quotas.{Planned, quotas_of};
ghost use Rattle.host_io.specs.declared.error.RunError.TheVariants as refusals;
ghost use Rattle.round_schedule.specs.Past.{hart_after};
ghost use Rattle.hart_step.specs.Words.{words_of};
ghost use Rattle.machine.specs.Machine.{Running, after_rounds};
ghost use Rattle.machine.specs.Untraced.{IsUntraced};
ghost use Rattle.moments.specs.Sights.{sight_after};
ghost use Rattle.run_events.specs.Pcs.{hart_at};
ghost use Rattle.replayer.specs.Past.{sight_at};
ghost use Rattle.replayer.specs.Refusals.{RefusedInOrder};
ghost use Rattle.replayer.specs.Replayed.{IsPlanFor, start_of};
ghost use Rattle.round_schedule.specs.Bounds.{AreWorkers};

use crate::opened::opened_untraced;
use hart_step::Hart;
use host_io::RunError;
use machine::UntracedMachine;
use moments::Sight;
use past_harts::{hart_after, sight_after};
use recording::Recording;
use std::alloc::Global;
use std::sync::Wait;
use std::thread::Threads;

/// Hart `hart` after the first `count` instructions that it did in a round of the recording's run, serial ones counted, and memory as
/// it saw it there: before the round's commit memory as the round began under the hart's own stores. With all of them, the hart at
/// the round's end, with its stop. `None` where there is no such round or hart, or where the hart did fewer. The first round is
/// round 1. The recording is run anew, on 1 to 16 workers. It may wait.
///
/// # Errors
///
/// `WorkersOutOfRange`, then the refusals of the recording's image, then of its plan; `OutOfMemory`.
pub fn sight_at<R: Threads + Wait + Sync>(
    rt: &R,
    alloc: Global,
    recording: &Recording,
    round: u32,
    hart: u32,
    count: u64,
    workers: u32,
) -> Result<Option<Sight>, RunError>
    ensures sight { IfOk result (λ s. (plan : Planned) × IsPlanFor recording.now plan ×
        (s ≡ sight_at recording.now.rounds (start_of recording.now plan) round hart count)) }
    ensures in_order { RefusedInOrder workers recording.now result }
{
    let machine = opened_untraced(alloc, recording, workers)?;
    match rounds_before(recording, round) {
        Some(before) => sight_in_round(rt, machine, before, hart, count, workers),
        None => {
            drop(machine);
            Ok(None)
        }
    }
}

/// The hart alone.
///
/// # Errors
///
/// As `sight_at`.
pub fn state_at<R: Threads + Wait + Sync>(
    rt: &R,
    alloc: Global,
    recording: &Recording,
    round: u32,
    hart: u32,
    count: u64,
    workers: u32,
) -> Result<Option<Hart>, RunError>
    ensures hart { IfOk result (λ h. (plan : Planned) × IsPlanFor recording.now plan ×
        (h ≡ hart_at recording.now.rounds (start_of recording.now plan) round hart count)) }
    ensures in_order { RefusedInOrder workers recording.now result }
{
    let machine = opened_untraced(alloc, recording, workers)?;
    match rounds_before(recording, round) {
        Some(before) => hart_in_round(rt, machine, before, hart, count, workers),
        None => {
            drop(machine);
            Ok(None)
        }
    }
}

/// How many rounds of a recording's run come before this one. `None` where it has no such round.
fn rounds_before(recording: &Recording, round: u32) -> Option<u32>
    ensures { MatchOption result ((round ≡ 0) ⊎ (recording.now.rounds < round)) (λ before.
        (before + 1 ≡ round) × (round ≤ recording.now.rounds)) }
{
    if round == 0 || round > recording.rounds() {
        return None;
    }
    Some(round - 1)
}

/// What the hart is and sees within the round that comes after so many more rounds of a run, of which this is the machine without its
/// trace.
fn sight_in_round<R: Threads + Wait + Sync>(
    rt: &R,
    mut machine: UntracedMachine,
    before: u32,
    hart: u32,
    count: u64,
    workers: u32,
) -> Result<Option<Sight>, RunError>
    requires workers { AreWorkers workers }
    requires rounds { machine.rounds + before + 1 < 2 ^ 32 }
    requires run { (m : Running) × IsUntraced m machine }
    ensures sight { (m : Running) → IsUntraced m machine →
        IfOk result (λ s. s ≡ sight_after (words_of
        m.code) m.plan.budget (quotas_of m.plan) (after_rounds before m).state hart count) }
    ensures refused { IfErr result (λ e. e ≡ refusals.OutOfMemory) }
{
    match machine.run(rt, before, workers) {
        Ok(()) => sight_after(rt, machine, hart, count, workers),
        Err(refused) => {
            drop(machine);
            Err(refused)
        }
    }
}

/// The hart alone.
pub(crate) fn hart_in_round<R: Threads + Wait + Sync>(
    rt: &R,
    mut machine: UntracedMachine,
    before: u32,
    hart: u32,
    count: u64,
    workers: u32,
) -> Result<Option<Hart>, RunError>
    requires workers { AreWorkers workers }
    requires rounds { machine.rounds + before + 1 < 2 ^ 32 }
    requires run { (m : Running) × IsUntraced m machine }
    ensures hart { (m : Running) → IsUntraced m machine → IfOk result (λ h. h ≡ hart_after (words_of
        m.code) m.plan.budget (quotas_of m.plan) (after_rounds before m).state hart count) }
    ensures refused { IfErr result (λ e. e ≡ refusals.OutOfMemory) }
{
    match machine.run(rt, before, workers) {
        Ok(()) => hart_after(rt, machine, hart, count, workers),
        Err(refused) => {
            drop(machine);
            Err(refused)
        }
    }
}
