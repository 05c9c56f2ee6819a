ghost use denote.Param.Send.{IsSync};
ghost use Rattle.std.specs.Prelude.{◌≡◌, ◌<◌, ◌≤◌, ◌+◌, ◌^◌, ◌⊎◌, Err, IfOk, IfErr};
ghost use Rattle.host_io.specs.declared.error.RunError.TheVariants as refusals;
ghost use Rattle.moments.specs.Sights.{sight_after};
ghost use Rattle.round_schedule.specs.Past.{hart_after};
ghost use Rattle.round_planner.specs.Quotas.{quotas_of};
ghost use Rattle.hart_step.specs.Words.{words_of};
ghost use Rattle.machine.specs.Machine.{Running};
ghost use Rattle.machine.specs.Untraced.{IsUntraced};
ghost use Rattle.round_schedule.specs.Bounds.{AreNoWorkers};

use guest_rounds::{Crew, MANY_LINES};
use guest_turns::sight_in_round;
use hart_rounds::LogForm;
use hart_step::Hart;
use host_io::RunError;
use machine::{Machine, MachineFields, UntracedMachine};
use moments::Sight;
use parallel_phase::Open;
use round_schedule::MOST_WORKERS;
use std::sync::Wait;
use std::thread::Threads;

/// What hart `hart` of a run, of which this is the machine without its trace, is and sees after the first `count` instructions that it
/// does in the next round, serial ones counted: within its part of the parallel phase memory as the round began under its own stores,
/// and in its serial turn memory itself. With all of them the hart is as at the round's end, its stop told. `None` where there is no
/// such hart, or where it does fewer. It may wait.
///
/// # Errors
///
/// `WorkersOutOfRange`, `RoundsExhausted` where 4,294,967,295 rounds were done before, and `OutOfMemory`.
pub fn sight_after<R: Threads + Wait + Sync>(
    rt: &R,
    machine: UntracedMachine,
    hart: u32,
    count: u64,
    workers: u32,
) -> Result<Option<Sight>, RunError>
    requires run { (m : Running) × IsUntraced m machine }
    ensures sight { (m : Running) → IsUntraced m machine → IfOk result (λ s. s ≡
        sight_after (words_of m.code) m.plan.budget (quotas_of m.plan) m.state hart count) }
    ensures workers { AreNoWorkers workers → result ≡ Err refusals.WorkersOutOfRange }
    ensures exhausted { 1 ≤ workers → workers ≤ MOST_WORKERS → machine.rounds + 1 ≡ 2 ^ 32 →
        result ≡ Err refusals.RoundsExhausted }
    ensures refused { 1 ≤ workers → workers ≤ MOST_WORKERS → machine.rounds + 1 < 2 ^ 32 →
        IfErr result (λ e. e ≡ refusals.OutOfMemory) }
{
    if workers < 1 || workers > MOST_WORKERS {
        return Err(RunError::WorkersOutOfRange);
    }
    if machine.rounds() == u32::MAX {
        return Err(RunError::RoundsExhausted);
    }
    if hart as usize >= machine.harts().len() {
        return Ok(None);
    }
    let crew = Crew {
        rt,
        workers,
        gate: &Open,
        least_lines: MANY_LINES,
        form: LogForm::Counted,
    };
    let MachineFields {
        guest,
        plan,
        rounds,
    } = machine.into_fields();
    Ok(sight_in_round(&crew, guest, &plan, rounds, hart, count)?)
}

/// The hart of `sight_after` alone.
///
/// # Errors
///
/// `WorkersOutOfRange`, `RoundsExhausted` where 4,294,967,295 rounds were done before, and `OutOfMemory`.
pub fn hart_after<R: Threads + Wait + Sync>(
    rt: &R,
    machine: UntracedMachine,
    hart: u32,
    count: u64,
    workers: u32,
) -> Result<Option<Hart>, RunError>
    requires run { (m : Running) × IsUntraced m machine }
    ensures hart { (m : Running) → IsUntraced m machine → IfOk result (λ h. h ≡
        hart_after (words_of m.code) m.plan.budget (quotas_of m.plan) m.state hart count) }
    ensures workers { AreNoWorkers workers → result ≡ Err refusals.WorkersOutOfRange }
    ensures exhausted { 1 ≤ workers → workers ≤ MOST_WORKERS → machine.rounds + 1 ≡ 2 ^ 32 →
        result ≡ Err refusals.RoundsExhausted }
    ensures refused { 1 ≤ workers → workers ≤ MOST_WORKERS → machine.rounds + 1 < 2 ^ 32 →
        IfErr result (λ e. e ≡ refusals.OutOfMemory) }
{
    match sight_after(rt, machine, hart, count, workers)? {
        Some(sight) => Ok(Some(sight.hart())),
        None => Ok(None),
    }
}

/// What a machine is asked of its next round. The calls stand here and not at `Machine`, which waits for nothing that is looked at within
/// a round.
pub trait PastHarts {
    /// What `sight_after` gives of the machine without its trace. It may wait.
    ///
    /// # Errors
    ///
    /// Those of `sight_after`.
    fn sight_after<R: Threads + Wait + Sync>(
        self,
        rt: &R,
        hart: u32,
        count: u64,
        workers: u32,
    ) -> Result<Option<Sight>, RunError>
        requires sync { IsSync R.row };

    /// The hart alone.
    ///
    /// # Errors
    ///
    /// Those of `sight_after`.
    fn hart_after<R: Threads + Wait + Sync>(
        self,
        rt: &R,
        hart: u32,
        count: u64,
        workers: u32,
    ) -> Result<Option<Hart>, RunError>
        requires sync { IsSync R.row };
}

impl PastHarts for Machine {
    fn sight_after<R: Threads + Wait + Sync>(
        self,
        rt: &R,
        hart: u32,
        count: u64,
        workers: u32,
    ) -> Result<Option<Sight>, RunError>
        requires sync { IsSync R.row }
        ensures sight { IfOk result (λ s. s ≡ sight_after (words_of self.code) self.plan.budget
            (quotas_of self.plan) self.state hart count) }
        ensures workers { AreNoWorkers workers → result ≡ Err refusals.WorkersOutOfRange }
        ensures exhausted { 1 ≤ workers → workers ≤ MOST_WORKERS → self.state.rounds + 1 ≡ 2 ^ 32 →
            result ≡ Err refusals.RoundsExhausted }
        ensures refused { 1 ≤ workers → workers ≤ MOST_WORKERS → self.state.rounds + 1 < 2 ^ 32 →
            IfErr result (λ e. e ≡ refusals.OutOfMemory) }
    {
        sight_after(rt, self.into_untraced(), hart, count, workers)
    }

    fn hart_after<R: Threads + Wait + Sync>(
        self,
        rt: &R,
        hart: u32,
        count: u64,
        workers: u32,
    ) -> Result<Option<Hart>, RunError>
        requires sync { IsSync R.row }
        ensures hart { IfOk result (λ h. h ≡ hart_after (words_of self.code) self.plan.budget
            (quotas_of self.plan) self.state hart count) }
        ensures workers { AreNoWorkers workers → result ≡ Err refusals.WorkersOutOfRange }
        ensures exhausted { 1 ≤ workers → workers ≤ MOST_WORKERS → self.state.rounds + 1 ≡ 2 ^ 32 →
            result ≡ Err refusals.RoundsExhausted }
        ensures refused { 1 ≤ workers → workers ≤ MOST_WORKERS → self.state.rounds + 1 < 2 ^ 32 →
            IfErr result (λ e. e ≡ refusals.OutOfMemory) }
    {
        hart_after(rt, self.into_untraced(), hart, count, workers)
    }
}
