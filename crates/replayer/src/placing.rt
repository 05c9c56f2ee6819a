ghost use Rattle.std.specs.Prelude.{◌≡◌, ℕ, ◌≤◌, ◌<◌, ◌⊎◌, None, IfOk, IfErr};
ghost use Rattle.round_planner.specs.Quotas.{Planned};
ghost use Rattle.host_io.specs.declared.error.RunError.TheVariants as refusals;
ghost use Rattle.run_events.specs.Pcs.{hart_at};
ghost use Rattle.machine.specs.Machine.{Running, after_rounds};
ghost use Rattle.machine.specs.Untraced.{IsUntraced};
ghost use Rattle.replayer.specs.Past.{Begins, IsRoundOf, IsStateBefore};
ghost use Rattle.replayer.specs.Refusals.{RefusedInOrder};
ghost use Rattle.replayer.specs.Replayed.{IsPlanFor, start_of};
ghost use Rattle.replayer.specs.Visits.{HasSought, IsBehind};
ghost use Rattle.round_schedule.specs.Bounds.{AreWorkers};

use crate::counting::done_by;
use crate::opened::opened_untraced;
use crate::past::hart_in_round;
use hart_step::Hart;
use host_io::RunError;
use machine::{Next, UntracedMachine, Visitor};
use pages::OutOfMemory;
use recording::Recording;
use std::alloc::Global;
use std::mem;
use std::sync::Wait;
use std::thread::Threads;

/// The round in which a hart did its instruction of a place, and the hart before that instruction. Places count from 0 through
/// the whole run, serial instructions counted, as in the lines of events; it is the hart's `done`. `None` where there is no such
/// hart, or where it never did so many. The recording is run anew, on 1 to 16 workers. It may wait.
///
/// # Errors
///
/// As `state_at`.
pub fn state_before<R: Threads + Wait + Sync>(
    rt: &R,
    alloc: Global,
    recording: &Recording,
    hart: u32,
    place: u64,
    workers: u32,
) -> Result<Option<(u32, Hart)>, RunError>
    ensures before { IfOk result (λ x. (plan : Planned) × IsPlanFor recording.now plan ×
        IsStateBefore recording.now.rounds (start_of recording.now plan) hart place x) }
    ensures in_order { RefusedInOrder workers recording.now result }
{
    let mut machine = opened_untraced(alloc, recording, workers)?;
    // At most 1,000, so that no count of instructions wraps.
    let _budget = recording.budget();
    let before = if hart < recording.harts() {
        state_sought(rt, &mut machine, recording.rounds(), hart, place, workers)
    } else {
        Ok(None)
    };
    drop(machine);
    before
}

/// What `state_before` gives of the next rounds of a machine that was just opened and has this hart.
fn state_sought<R: Threads + Wait + Sync>(
    rt: &R,
    machine: &mut UntracedMachine,
    rounds: u32,
    hart: u32,
    place: u64,
    workers: u32,
) -> Result<Option<(u32, Hart)>, RunError>
    requires workers { AreWorkers workers }
    requires run { (m : Running) × IsUntraced m machine.old × Begins m hart }
    ensures before { (m : Running) → IsUntraced m machine.old → Begins m hart →
        IfOk result (λ x. IsStateBefore rounds m hart place x) }
    ensures refused { IfErr result (λ e. e ≡ refusals.OutOfMemory) }
{
    let sought = seek(rt, machine, rounds, hart, place, workers)?;
    match sought.found {
        None => {
            drop(sought);
            Ok(None)
        }
        Some((round, count)) => match hart_from(rt, sought.last, round, hart, count, workers)? {
            Some(before) => Ok(Some((round, before))),
            None => unreachable!(),
        },
    }
}

/// The hart after its first `count` instructions of a round, by a machine of the run from before that round.
fn hart_from<R: Threads + Wait + Sync>(
    rt: &R,
    last: UntracedMachine,
    round: u32,
    hart: u32,
    count: u64,
    workers: u32,
) -> Result<Option<Hart>, RunError>
    requires workers { AreWorkers workers }
    requires behind { last.rounds < round }
    requires run { (m : Running) × IsUntraced m last }
    ensures hart { (m : Running) (rounds : ℕ) → IsUntraced (after_rounds last.rounds m) last →
        round ≤ rounds → IfOk result (λ h. h ≡ hart_at rounds m round hart count) }
    ensures refused { IfErr result (λ e. e ≡ refusals.OutOfMemory) }
{
    let between = round - 1 - last.rounds();
    hart_in_round(rt, last, between, hart, count, workers)
}

/// Seeks the round in which a hart does its instruction of a place, among the next rounds of a machine that was just opened.
fn seek<R: Threads + Wait + Sync>(
    rt: &R,
    machine: &mut UntracedMachine,
    rounds: u32,
    hart: u32,
    place: u64,
    workers: u32,
) -> Result<Seeking, RunError>
    requires workers { AreWorkers workers }
    requires opened { machine.old.rounds ≡ 0 }
    ensures round { (m : Running) → IsUntraced m machine.old → Begins m hart →
        IfOk result (λ s. IsRoundOf rounds m hart place s.found) }
    ensures behind { IfOk result (λ s. IsBehind machine.old s.last rounds s.found) }
    ensures refused { IfErr result (λ e. e ≡ refusals.OutOfMemory) }
{
    let last = machine.share()?;
    let mut seeking = Seeking {
        hart,
        place,
        before: 0,
        found: None,
        last,
    };
    match machine.walk(rt, rounds, workers, &mut seeking) {
        Ok(_rounds) => Ok(seeking),
        Err(refused) => {
            drop(seeking);
            Err(RunError::from(refused))
        }
    }
}

/// Seeks the round in which a hart does its instruction of a place.
#[derive(Drop)]
struct Seeking {
    hart: u32,
    place: u64,
    /// How many instructions the hart did so far.
    before: u64,
    /// That round, and how many instructions the hart does in it before that one.
    found: Option<(u32, u64)>,
    /// A machine of the run from before that round.
    last: UntracedMachine,
}

impl Visitor for Seeking {
    ghost knows = { λ first v start rounds done.
        (v.hart ≡ first.hart) × (v.place ≡ first.place) ×
        HasSought first.hart first.place v.before v.found v.last start rounds done };

    ghost has_enough = { λ v u. v.found ≡ None → ⊥ };

    ghost may_fail = { Unit {0} };

    fn after_round(&mut self, machine: &UntracedMachine) -> Result<Next, OutOfMemory> {
        if self.found.is_some() {
            return Ok(Next::Enough);
        }
        let after = done_by(machine, self.hart);
        if self.place < after {
            self.found = Some((machine.rounds(), self.place - self.before));
            return Ok(Next::Enough);
        }
        self.before = after;
        self.stay_behind(machine)?;
        Ok(Next::Round)
    }
}

impl Seeking {
    /// Keeps this machine where the next round may be the one that is sought. Its copies grow rarer, so that a hart that is long in
    /// coming to its place costs few.
    fn stay_behind(&mut self, machine: &UntracedMachine) -> Result<(), OutOfMemory>
        ensures last { (self.new.last ≡ self.old.last) ⊎ (self.new.last ≡ machine.now) }
        ensures asked { (self.new.hart ≡ self.old.hart) × (self.new.place ≡ self.old.place) }
        ensures stays { (self.new.before ≡ self.old.before) × (self.new.found ≡ self.old.found) }
    {
        if !self.is_near(machine) || machine.rounds() / 2 < self.last.rounds() {
            return Ok(());
        }
        drop(mem::replace(&mut self.last, copied(machine)?));
        Ok(())
    }

    /// Whether the hart may come to its place in the next round.
    fn is_near(&self, machine: &UntracedMachine) -> bool {
        let plan = machine.plan();
        if self.hart >= plan.harts() || machine.rounds() == u32::MAX {
            return false;
        }
        let quota = plan.quota(machine.rounds() + 1, self.hart);
        self.place.saturating_sub(self.before) < u64::from(quota) + u64::from(plan.budget())
    }
}

/// An equal machine.
fn copied(machine: &UntracedMachine) -> Result<UntracedMachine, OutOfMemory>
    ensures { IfOk result (λ u. u ≡ machine.now) }
{
    match machine.copy() {
        Ok(copy) => Ok(copy),
        Err(_) => Err(OutOfMemory),
    }
}
