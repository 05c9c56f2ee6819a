ghost use Rattle.std.specs.Prelude.{◌≡◌, ◌<◌, ◌≤◌, ◌+◌, ◌-◌, ◌^◌, ◌⊎◌, ℕ, length, Err, IfOk, IfErr, OnOk, OnErr};
ghost use Rattle.host_io.specs.declared.error.RunError.TheVariants as refusals;
ghost use Rattle.round_schedule.specs.Schedule.{hart_rounds};
ghost use Rattle.round_planner.specs.Quotas.{quotas_of};
ghost use Rattle.hart_step.specs.Words.{words_of};
ghost use Rattle.machine.specs.Answers.{AnswersRun};
ghost use Rattle.machine.specs.Machine.{after_round, after_rounds, count_stopped};
ghost use Rattle.guest_rounds.specs.Rounds.{count_waiting};
ghost use Rattle.round_schedule.specs.Bounds.{AreNoWorkers};

use crate::machine::Machine;
use crate::observing::{Observer, Unobserved};
use guest_rounds::Crew;
use hart_rounds::LogForm;
use hart_step::Hart;
use host_io::RunError;
use parallel_phase::Gate;
use round_schedule::{MOST_HARTS, MOST_WORKERS};
use std::sync::Wait;
use std::thread::Threads;

/// What a round was.
#[derive(Clone, Copy)]
pub struct RoundNote {
    /// The round's number; the first is 1.
    pub round: u32,
    /// How many harts waited for the serial phase.
    pub waited: u32,
    /// How many harts are stopped after the round.
    pub stopped: u32,
}

impl Machine {
    /// Does one round, on 1 to 16 workers, which call the gate around the round of each hart, and then share the commit.
    /// It may wait.
    ///
    /// How many workers there are makes no difference to the machine. All of them are started, as many as are told, also where
    /// fewer harts run.
    ///
    /// # Errors
    ///
    /// `WorkersOutOfRange`, `RoundsExhausted` where 4,294,967,295 rounds were done before, and `OutOfMemory`.
    /// The machine is as it was then.
    pub fn round<G: Gate + Sync, R: Threads + Wait + Sync>(
        &mut self,
        rt: &R,
        workers: u32,
        gate: &G,
    ) -> Result<RoundNote, RunError>
        ensures ok { OnOk result (self.new ≡ after_round self.old) }
        ensures round { IfOk result (λ n. n.round ≡ self.new.state.rounds) }
        ensures one_more { OnOk result (self.new.state.rounds ≡ self.old.state.rounds + 1) }
        ensures waited { IfOk result (λ n. n.waited ≡
            count_waiting (hart_rounds (words_of self.old.code) self.old.state.bytes
            (quotas_of self.old.plan self.old.state.rounds) self.old.state.harts)) }
        ensures stopped { IfOk result (λ n. n.stopped ≡ count_stopped self.new.state.harts) }
        ensures err { OnErr result (self.new ≡ self.old) }
        ensures workers { AreNoWorkers workers → result ≡ Err refusals.WorkersOutOfRange }
        ensures exhausted { 1 ≤ workers → workers ≤ MOST_WORKERS →
            self.old.state.rounds + 1 ≡ 2 ^ 32 →
            result ≡ Err refusals.RoundsExhausted }
        ensures refused { 1 ≤ workers → workers ≤ MOST_WORKERS →
            self.old.state.rounds + 1 < 2 ^ 32 →
            IfErr result (λ e. e ≡ refusals.OutOfMemory) }
    {
        if workers < 1 || workers > MOST_WORKERS {
            return Err(RunError::WorkersOutOfRange);
        }
        if self.bare.rounds() == u32::MAX {
            return Err(RunError::RoundsExhausted);
        }
        self.bare.check_to_go_on();
        let crew = Crew {
            rt,
            workers,
            gate,
            least_lines: 0,
            form: LogForm::InBrief,
        };
        let ends = self.bare.do_parallel(&crew)?;
        Ok(self.bare.end_round(&crew, &mut self.trace, ends)?)
    }

    /// Does so many rounds, on 1 to 16 workers. It may wait.
    ///
    /// How many workers there are makes no difference to the machine. A round in which there is little to do stays on the
    /// calling thread, and so does a commit of few stores. Once all harts have stopped, the rounds that are left cost nothing.
    ///
    /// # Errors
    ///
    /// `WorkersOutOfRange`: the machine is as it was. `RoundsExhausted` where there would be more than 4,294,967,295 rounds:
    /// those that fit are done. `OutOfMemory`: fewer rounds are done, each of them whole.
    pub fn run<R: Threads + Wait + Sync>(
        &mut self,
        rt: &R,
        rounds: u32,
        workers: u32,
    ) -> Result<(), RunError>
        ensures { AnswersRun rounds workers self.old.state.rounds self.new.state.rounds
            (λ k. self.new ≡ after_rounds k self.old) (self.new ≡ self.old) result }
    {
        self.run_observed(rt, rounds, workers, &mut Unobserved)
    }

    /// The same with an observer, which looks at the machine after each round in which a hart runs.
    ///
    /// # Errors
    ///
    /// Those of `run`.
    pub fn run_observed<O: Observer, R: Threads + Wait + Sync>(
        &mut self,
        rt: &R,
        rounds: u32,
        workers: u32,
        observer: &mut O,
    ) -> Result<(), RunError>
        ensures { AnswersRun rounds workers self.old.state.rounds self.new.state.rounds
            (λ k. self.new ≡ after_rounds k self.old) (self.new ≡ self.old) result }
    {
        self.bare.check_to_go_on();
        self.bare
            .run_keeping(rt, rounds, workers, &mut self.trace, observer)
    }
}

/// How many harts have stopped.
pub(crate) fn stopped_count(harts: &[Hart]) -> u32
    requires { length harts.now ≤ MOST_HARTS }
    ensures count { result ≡ count_stopped harts.now }
    ensures most { result ≤ length harts.now }
{
    match harts {
        [] => 0,
        [first, rest @ ..] => u32::from(first.stop.is_some()) + stopped_count(rest),
    }
}
