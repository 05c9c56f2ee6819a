ghost use Rattle.std.specs.Prelude.{◌≡◌, ◌≤◌, ◌<◌, ◌^◌, map, length, true, IfOk, IfErr};
ghost use Rattle.round_planner.specs.Quotas.{Planned};
ghost use Rattle.host_io.specs.declared.error.RunError.TheVariants as refusals;
ghost use Rattle.machine.specs.Machine.{Running};
ghost use Rattle.machine.specs.Untraced.{IsUntraced};
ghost use Rattle.recording.specs.Views.{checkpoint_view};
ghost use Rattle.replayer.specs.Refusals.{RefusedInOrder};
ghost use Rattle.replayer.specs.Replayed.{IsNextVerdict, IsPlanFor, IsVerdict, IsVerdictOn, start_of};
ghost use Rattle.kept_states.specs.Summaries.{checkpoint_in};
ghost use Rattle.replayer.specs.Visits.{HasCompared};
ghost use Rattle.replayer.specs.declared.verdict.Verdict.TheVariants.{Same};
ghost use Rattle.round_schedule.specs.Bounds.{AreWorkers};

use crate::opened::opened_untraced;
use crate::verdict::Verdict;
use host_io::RunError;
use kept_states::{Seen, agrees, seen_of};
use machine::{Next, Observer, Unobserved, UntracedMachine, Visitor};
use pages::OutOfMemory;
use recording::{Checkpoint, Recording};
use std::alloc::Global;
use std::sync::Wait;
use std::thread::Threads;

/// Runs a recording anew, on 1 to 16 workers, and compares the state after each round with what was kept of it. It ends at the
/// first difference. It may wait.
///
/// # Errors
///
/// `WorkersOutOfRange`, then the refusals of the recording's image, then of its plan; `OutOfMemory`.
pub fn replay<R: Threads + Wait + Sync>(
    rt: &R,
    alloc: Global,
    recording: &Recording,
    workers: u32,
) -> Result<Verdict, RunError>
    ensures verdict { IfOk result (λ v. (plan : Planned) × IsPlanFor recording.now plan ×
        IsVerdict recording.now (start_of recording.now plan) v) }
    ensures in_order { RefusedInOrder workers recording.now result }
{
    replay_observed(rt, alloc, recording, workers, &mut Unobserved)
}

/// The same with an observer, which looks at the machine after each round whose state is as it was kept, and so not after the
/// one at which it ends.
///
/// # Errors
///
/// As `replay`.
pub fn replay_observed<O: Observer, R: Threads + Wait + Sync>(
    rt: &R,
    alloc: Global,
    recording: &Recording,
    workers: u32,
    observer: &mut O,
) -> Result<Verdict, RunError>
    ensures verdict { IfOk result (λ v. (plan : Planned) × IsPlanFor recording.now plan ×
        IsVerdict recording.now (start_of recording.now plan) v) }
    ensures in_order { RefusedInOrder workers recording.now result }
{
    let mut machine = opened_untraced(alloc, recording, workers)?;
    // So many rounds are kept, as 32 bits hold.
    let _rounds = recording.rounds();
    let verdict = first_difference(
        rt,
        &mut machine,
        recording.checkpoints(),
        recording.every(),
        workers,
        observer,
    );
    drop(machine);
    verdict
}

/// Runs a machine that was just opened for as many rounds as were kept, and looks for the first after which its state is
/// another than what was kept of it. It may wait.
fn first_difference<O: Observer, R: Threads + Wait + Sync>(
    rt: &R,
    machine: &mut UntracedMachine,
    checkpoints: &[Checkpoint],
    every: u32,
    workers: u32,
    observer: &mut O,
) -> Result<Verdict, RunError>
    requires workers { AreWorkers workers }
    requires opened { machine.old.rounds ≡ 0 }
    requires rounds { length checkpoints.now < 2 ^ 32 }
    ensures verdict { (m : Running) → IsUntraced m machine.old →
        IfOk result (λ v. IsVerdictOn (map checkpoint_view checkpoints.now) every m v) }
    ensures refused { IfErr result (λ e. e ≡ refusals.OutOfMemory) }
{
    let mut comparing = Comparing {
        checkpoints,
        every,
        verdict: Verdict::Same,
        ends: true,
        observer,
    };
    machine.walk(rt, checkpoints.len() as u32, workers, &mut comparing)?;
    Ok(comparing.verdict)
}

/// Compares the state after each round with what was kept of it.
#[derive(Drop)]
pub(crate) struct Comparing<'a, O> {
    /// What was kept of all rounds.
    pub(crate) checkpoints: &'a [Checkpoint],
    /// Registers were kept after each round whose number is a multiple of it.
    pub(crate) every: u32,
    /// The verdict on the rounds that are done.
    pub(crate) verdict: Verdict,
    /// Whether it ends the walk at the first difference.
    pub(crate) ends: bool,
    /// It is shown the rounds up to the first difference, whose state is as it was kept.
    pub(crate) observer: &'a mut O,
}

impl<'a, O: Observer> Visitor for Comparing<'a, O> {
    ghost knows = { λ first v start rounds done.
        (v.checkpoints.now ≡ first.checkpoints.now) × (v.every ≡ first.every) ×
        (v.ends ≡ first.ends) ×
        HasCompared (map checkpoint_view first.checkpoints.now) first.every first.verdict v.verdict
        start rounds
        done };

    ghost has_enough = { λ v u. (v.ends ≡ true) × (v.verdict ≡ Same → ⊥) };

    ghost may_fail = { ⊥ };

    fn after_round(&mut self, machine: &UntracedMachine) -> Result<Next, OutOfMemory> {
        let round = machine.rounds();
        let checkpoint = &self.checkpoints[round as usize - 1];
        let seen = seen_of(machine);
        self.verdict = next_verdict(self.verdict, checkpoint, self.every, &seen);
        match self.verdict {
            Verdict::Same => {
                self.observer.after_round(machine);
                Ok(Next::Round)
            }
            Verdict::Differs(_) if self.ends => Ok(Next::Enough),
            Verdict::Differs(_) => Ok(Next::Round),
        }
    }
}

/// The verdict after one more round, where the one on the rounds before it is this.
fn next_verdict(before: Verdict, checkpoint: &Checkpoint, every: u32, seen: &Seen<'_>) -> Verdict
    ensures { IsNextVerdict before (checkpoint_view checkpoint.now ≡
        checkpoint_in every seen.now) seen.now.round result }
{
    match before {
        Verdict::Differs(_) => before,
        Verdict::Same => if agrees(checkpoint, every, seen) {
            Verdict::Same
        } else {
            Verdict::Differs(seen.round)
        },
    }
}
