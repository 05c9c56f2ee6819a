ghost use Rattle.std.specs.Prelude.{◌≡◌, slice_get, Some, IfOk};
ghost use Rattle.round_planner.specs.Quotas.{Planned};
ghost use Rattle.hart_step.specs.declared.hart.Hart.{Hart};
ghost use Rattle.replayer.specs.Past.{IsCountAt};
ghost use Rattle.replayer.specs.Refusals.{RefusedInOrder};
ghost use Rattle.replayer.specs.Replayed.{IsPlanFor, start_of};
ghost use Rattle.replayer.specs.Visits.{HasCounted};

use crate::opened::opened_untraced;
use host_io::RunError;
use machine::{Next, UntracedMachine, Visitor};
use pages::OutOfMemory;
use recording::Recording;
use std::alloc::Global;
use std::sync::Wait;
use std::thread::Threads;

/// How many instructions a hart did in a round of the recording's run, serial ones counted: the greatest count for which
/// `state_at` gives a hart. `None` where there is no such round or hart. The first round is round 1. The recording is run anew,
/// on 1 to 16 workers. It may wait.
///
/// # Errors
///
/// As `state_at`.
pub fn count_at<R: Threads + Wait + Sync>(
    rt: &R,
    alloc: Global,
    recording: &Recording,
    round: u32,
    hart: u32,
    workers: u32,
) -> Result<Option<u64>, RunError>
    ensures count { IfOk result (λ n. (plan : Planned) × IsPlanFor recording.now plan ×
        IsCountAt recording.now.rounds (start_of recording.now plan) round hart n) }
    ensures in_order { RefusedInOrder workers recording.now result }
{
    let mut machine = opened_untraced(alloc, recording, workers)?;
    // At most 1,000, so that no count of instructions wraps.
    let _budget = recording.budget();
    if round == 0 || round > recording.rounds() || hart >= recording.harts() {
        drop(machine);
        return Ok(None);
    }
    let mut counting = Counting {
        hart,
        before: 0,
        after: done_by(&machine, hart),
    };
    let walked = machine.walk(rt, round, workers, &mut counting);
    drop(machine);
    let _rounds = walked?;
    Ok(Some(counting.after - counting.before))
}

/// Counts the instructions of a hart before the last round and after it.
#[derive(Drop)]
struct Counting {
    hart: u32,
    before: u64,
    after: u64,
}

impl Visitor for Counting {
    ghost knows = { λ first v start rounds done.
        (v.hart ≡ first.hart) × HasCounted first.hart v.before v.after start done };

    ghost has_enough = { λ v u. ⊥ };

    ghost may_fail = { ⊥ };

    fn after_round(&mut self, machine: &UntracedMachine) -> Result<Next, OutOfMemory> {
        self.before = self.after;
        self.after = done_by(machine, self.hart);
        Ok(Next::Round)
    }
}

/// How many instructions a hart has done, and 0 where there is no such hart.
pub(crate) fn done_by(machine: &UntracedMachine, hart: u32) -> u64
    ensures { (h : Hart) → slice_get machine.now.harts hart ≡ Some h → result ≡ h.done }
{
    match machine.harts().get(hart as usize) {
        Some(hart) => hart.done,
        None => 0,
    }
}
