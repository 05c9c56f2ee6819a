ghost use Rattle.std.specs.Prelude.{◌≡◌, ℕ, ◌≤◌, ◌<◌, ◌+◌, ◌*◌, ◌++◌, ◌∷◌, [], if◌then◌else◌, Some, None, Err, IfOk, IfErr, OnOk, MatchOption};
ghost use Rattle.round_planner.specs.Quotas.{Planned};
ghost use Rattle.host_io.specs.declared.error.RunError.TheVariants as refusals;
ghost use Rattle.machine.specs.Machine.{Running, after_rounds};
ghost use Rattle.machine.specs.Untraced.{IsUntraced};
ghost use Rattle.recording.specs.Grammar.{is_due};
ghost use Rattle.replayer.specs.Checkpoints.{AreCheckpoints, IsOpened, checkpoints_of, checkpoint_machine};
ghost use Rattle.run_events.specs.Pcs.{hart_at};
ghost use Rattle.round_schedule.specs.Bounds.{AreNoWorkers, AreWorkers};
ghost use Rattle.replayer.specs.Refusals.{RefusedInOrder};
ghost use Rattle.replayer.specs.Replayed.{IsPlanFor, IsVerdict};

use crate::opened::opened;
use crate::past::hart_in_round;
use crate::replaying::Comparing;
use crate::verdict::Verdict;
use hart_step::Hart;
use host_io::RunError;
use machine::{Machine, Unobserved, UntracedMachine};
use pages::OutOfMemory;
use recording::Recording;
use round_schedule::MOST_WORKERS;
use std::alloc::Global;
use std::marker::Model;
use std::sync::Wait;
use std::thread::Threads;

/// An opened recording: whether its run is the recorded one, and machines of that run, kept to go on from.
pub struct Replay {
    rounds: u32,
    every: u32,
    verdict: Verdict,
    /// The machine before the first round.
    start: Machine,
    /// The machines after the rounds that are multiples of `every`, in turn.
    later: Vec<Machine>,
}

// By hand, so that a proof has one step for it wherever one is dropped, in this crate and above.
impl Drop for Replay {
    fn drop(self) {
        let Replay {
            rounds: _,
            every: _,
            verdict: _,
            start,
            later,
        } = self;
        drop(start);
        drop(later);
    }
}

impl Model for Replay {
    ghost use Rattle.std.specs.Prelude.{◌≡◌};
    ghost use Rattle.replayer.specs.Checkpoints.{Opened, AreCheckpoints};

    ghost Value = { Opened };

    ghost view = { λ r.
        record { rounds = r.rounds; start = r.start; every = r.every; verdict = r.verdict } };

    ghost invariant = { λ r. (r.start.state.rounds ≡ 0) ×
        AreCheckpoints r.every r.rounds r.start r.later.items };
}

impl Replay {
    /// Runs a recording anew, on 1 to 16 workers, as `replay` does, and goes on after a difference. It keeps the machine before
    /// the first round and the one after each round that is a multiple of `every`; with 0, the one before the first alone. It
    /// may wait.
    ///
    /// A kept machine takes the memory of the pages that were written to since the one before it, and of the output; it shares the
    /// other pages, and most of the trace.
    ///
    /// # Errors
    ///
    /// `WorkersOutOfRange`, then the refusals of the recording's image, then of its plan; `OutOfMemory`.
    pub fn open<R: Threads + Wait + Sync>(
        rt: &R,
        alloc: Global,
        recording: &Recording,
        every: u32,
        workers: u32,
    ) -> Result<Replay, RunError>
        ensures opened { IfOk result (λ p. (plan : Planned) × IsPlanFor recording.now plan ×
            IsOpened recording.now plan every p) }
        ensures in_order { RefusedInOrder workers recording.now result }
    {
        let mut start = opened(alloc, recording, workers)?;
        let mut later = Vec::new(alloc);
        match run_copy(rt, &mut start, recording, every, workers, &mut later) {
            Ok(verdict) => Ok(Replay {
                rounds: recording.rounds(),
                every,
                verdict,
                start,
                later,
            }),
            Err(refused) => {
                drop(start);
                drop(later);
                Err(refused)
            }
        }
    }

    /// Whether the run is the recorded one.
    pub fn verdict(&self) -> Verdict
        ensures { result ≡ self.now.verdict }
    {
        self.verdict
    }

    /// How many machines are kept.
    pub fn checkpoints(&self) -> usize
        ensures { result ≡ checkpoints_of self.now.every self.now.rounds }
    {
        self.later.len() + 1
    }

    /// The machine after round `number` times `every`, or `None` from `checkpoints` on.
    pub fn kept(&self, number: usize) -> Option<&Machine>
        ensures { MatchOption result (checkpoint_machine self.now number ≡
            None) (λ m. checkpoint_machine self.now number ≡ Some m.now) }
    {
        if number == 0 {
            return Some(&self.start);
        }
        if number > self.later.len() {
            return None;
        }
        Some(&self.later[number - 1])
    }

    /// What `state_at` gives of the recording, on 1 to 16 workers. It goes on from a copy of a machine that is kept. It may wait.
    ///
    /// # Errors
    ///
    /// `WorkersOutOfRange`; `OutOfMemory`.
    pub fn state_at<R: Threads + Wait + Sync>(
        &self,
        rt: &R,
        round: u32,
        hart: u32,
        count: u64,
        workers: u32,
    ) -> Result<Option<Hart>, RunError>
        ensures hart { IfOk result (λ h. h ≡
            hart_at self.now.rounds self.now.start round hart count) }
        ensures workers { AreNoWorkers workers → result ≡ Err refusals.WorkersOutOfRange }
        ensures errors { AreWorkers workers → IfErr result (λ e. e ≡ refusals.OutOfMemory) }
    {
        if workers < 1 || workers > MOST_WORKERS {
            return Err(RunError::WorkersOutOfRange);
        }
        if round == 0 || round > self.rounds {
            return Ok(None);
        }
        let (machine, left) = self.going_on_to(round - 1)?;
        hart_in_round(rt, machine, left, hart, count, workers)
    }

    /// A copy of the last kept machine that did at most so many rounds, without its trace, and how many of them are left to do.
    fn going_on_to(&self, rounds: u32) -> Result<(UntracedMachine, u32), RunError>
        requires { rounds < self.now.rounds }
        ensures machine { IfOk result (λ x. (m : Running) × IsUntraced m x.0 ×
            (after_rounds x.1 m ≡ after_rounds rounds self.now.start)) }
        ensures rounds { IfOk result (λ x. x.0.rounds + x.1 ≡ rounds) }
        ensures refused { IfErr result (λ e. e ≡ refusals.OutOfMemory) }
    {
        let (number, left) = last_multiple(self.every, rounds);
        match self.kept(number as usize) {
            Some(machine) => Ok((machine.copy_untraced()?, left)),
            None => unreachable!(),
        }
    }
}

/// Which multiple of `every` is the last one that is at most so many rounds, and how many rounds come after it. Of 0 there is
/// one alone.
fn last_multiple(every: u32, rounds: u32) -> (u32, u32)
    ensures sum { result.0 * every + result.1 ≡ rounds }
    ensures there { (all : ℕ) → rounds ≤ all → result.0 < checkpoints_of every all }
{
    if every == 0 {
        return (0, rounds);
    }
    (rounds / every, rounds % every)
}

/// Does what `run_keeping` does with a copy of a machine that was just opened.
fn run_copy<R: Threads + Wait + Sync>(
    rt: &R,
    start: &mut Machine,
    recording: &Recording,
    every: u32,
    workers: u32,
    later: &mut Vec<Machine>,
) -> Result<Verdict, RunError>
    requires workers { AreWorkers workers }
    requires opened { start.old.state.rounds ≡ 0 }
    requires none { later.old.items ≡ [] }
    ensures verdict { IfOk result (λ v. IsVerdict recording.now start.old v) }
    ensures later { OnOk result (AreCheckpoints every recording.now.rounds start.old
        later.new.items) }
    ensures stays { start.new ≡ start.old }
    ensures refused { IfErr result (λ e. e ≡ refusals.OutOfMemory) }
{
    let mut machine = start.share()?;
    let verdict = run_keeping(rt, &mut machine, recording, every, workers, later);
    drop(machine);
    verdict
}

/// Runs a machine that was just opened for the rounds of a recording, whatever it was opened from: the verdict. The machines after
/// the rounds that are multiples of `every` are put into an empty list, in turn. It may wait.
fn run_keeping<R: Threads + Wait + Sync>(
    rt: &R,
    machine: &mut Machine,
    recording: &Recording,
    every: u32,
    workers: u32,
    machines: &mut Vec<Machine>,
) -> Result<Verdict, RunError>
    requires workers { AreWorkers workers }
    requires opened { machine.old.state.rounds ≡ 0 }
    requires none { machines.old.items ≡ [] }
    ensures verdict { IfOk result (λ v. IsVerdict recording.now machine.old v) }
    ensures machines { OnOk result (AreCheckpoints every recording.now.rounds machine.old
        machines.new.items) }
    ensures refused { IfErr result (λ e. e ≡ refusals.OutOfMemory) }
{
    let rounds = recording.rounds();
    let mut nobody = Unobserved;
    let mut comparing = Comparing {
        checkpoints: recording.checkpoints(),
        every: recording.every(),
        verdict: Verdict::Same,
        ends: false,
        observer: &mut nobody,
    };
    let mut done = 0;
    while done < rounds {
        let more = next_rounds(every, rounds - done);
        machine.walk(rt, more, workers, &mut comparing)?;
        done += more;
        keep_if_due(machines, machine, every, done)?;
    }
    Ok(comparing.verdict)
}

/// How many rounds are done at once of those that are left: as many as to the next multiple of `every`.
fn next_rounds(every: u32, left: u32) -> u32
    requires { 1 ≤ left }
    ensures some { 1 ≤ result }
    ensures most { result ≤ left }
    ensures few { 0 < every → result ≤ every }
    ensures multiple { result < left → result ≡ every }
{
    if every == 0 { left } else { left.min(every) }
}

/// Adds a machine that is equal to this one, and shares its pages, after a round that is a multiple of `every`.
fn keep_if_due(
    machines: &mut Vec<Machine>,
    machine: &mut Machine,
    every: u32,
    round: u32,
) -> Result<(), RunError>
    ensures ok { OnOk result (machines.new.items ≡
        machines.old.items ++ (if is_due every round then machine.old ∷ [] else [])) }
    ensures stays { machine.new ≡ machine.old }
    ensures refused { IfErr result (λ e. e ≡ refusals.OutOfMemory) }
{
    if every == 0 || round % every != 0 {
        return Ok(());
    }
    Ok(add(machines, machine.share()?)?)
}

fn add(machines: &mut Vec<Machine>, machine: Machine) -> Result<(), OutOfMemory>
    ensures { OnOk result (machines.new.items ≡ machines.old.items ++ machine ∷ []) }
{
    machines.push(machine)?;
    Ok(())
}
