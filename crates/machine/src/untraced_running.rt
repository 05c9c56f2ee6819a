ghost use Rattle.std.specs.Prelude.{◌≡◌, ◌<◌, ◌≤◌, ◌+◌, ◌-◌, ◌^◌, ◌⊎◌, ◌++◌, ℕ, List, length, Err, IfOk, IfErr, OnOk, OnErr};
ghost use Rattle.host_io.specs.declared.error.RunError.TheVariants as refusals;
ghost use Rattle.round_schedule.specs.declared.event.Event.{Event};
ghost use Rattle.round_schedule.specs.Schedule.{hart_rounds};
ghost use Rattle.round_planner.specs.Quotas.{quotas_of};
ghost use Rattle.hart_step.specs.Words.{words_of};
ghost use Rattle.hart_rounds.specs.Starts.{keeps_log};
ghost use Rattle.trace.specs.Traced.{IsTrace};
ghost use Rattle.machine.specs.Machine.{count_stopped};
ghost use Rattle.guest_rounds.specs.Rounds.{count_waiting};
ghost use Rattle.machine.specs.Answers.{AnswersRun};
ghost use Rattle.machine.specs.RoundStarts.{AreOfNext};
ghost use Rattle.machine.specs.Untraced.{AreLast, HasRun, IsAfter, MayGoOn, next_events, untraced_round};
ghost use Rattle.round_schedule.specs.Bounds.{AreWorkers};

use crate::observing::{Observed, Observer, Unobserved};
use crate::running::{RoundNote, stopped_count};
use crate::untraced::UntracedMachine;
use guest_rounds::{Crew, EventKeeper, NoTrace};
use hart_rounds::HartEnd;
use host_io::RunError;
use lasting_workers::instructions_done;
use pages::OutOfMemory;
use parallel_phase::Gate;
use round_schedule::MOST_WORKERS;
use std::sync::Wait;
use std::thread::Threads;

impl UntracedMachine {
    /// Does so many rounds, on 1 to 16 workers. It may wait.
    ///
    /// How many workers there are makes no difference to the machine. A round in which there is little to do stays on the
    /// calling thread, and so does a commit of few stores. Once all harts have stopped, the rounds that are left cost nothing.
    ///
    /// # Errors
    ///
    /// `WorkersOutOfRange`: the machine is as it was. `RoundsExhausted` where there would be more than 4,294,967,295 rounds:
    /// those that fit are done. `OutOfMemory`: fewer rounds are done, each of them whole.
    pub fn run<R: Threads + Wait + Sync>(
        &mut self,
        rt: &R,
        rounds: u32,
        workers: u32,
    ) -> Result<(), RunError>
        ensures { AnswersRun rounds workers self.old.rounds self.new.rounds
            (λ k. IsAfter k self.old self.new) (self.new ≡ self.old) result }
    {
        self.run_observed(rt, rounds, workers, &mut Unobserved)
    }

    /// The same with an observer, which looks at the machine after each round in which a hart runs.
    ///
    /// # Errors
    ///
    /// Those of `run`.
    pub fn run_observed<O: Observer, R: Threads + Wait + Sync>(
        &mut self,
        rt: &R,
        rounds: u32,
        workers: u32,
        observer: &mut O,
    ) -> Result<(), RunError>
        ensures { AnswersRun rounds workers self.old.rounds self.new.rounds
            (λ k. IsAfter k self.old self.new) (self.new ≡ self.old) result }
    {
        self.run_keeping(rt, rounds, workers, &mut NoTrace, observer)
    }

    /// Does what `run_observed` does, and hands the events of these rounds to a keeper, which may keep those of each of the next ones.
    ///
    /// # Errors
    ///
    /// Those of `run`. The keeper has the events of the rounds that are done.
    pub fn run_keeping<E: EventKeeper, O: Observer, R: Threads + Wait + Sync>(
        &mut self,
        rt: &R,
        rounds: u32,
        workers: u32,
        keeper: &mut E,
        observer: &mut O,
    ) -> Result<(), RunError>
        requires kept { (es : List Event) × E.keeps keeper.old es }
        requires sound { (n : ℕ) (es : List Event) → self.old.rounds + n < 2 ^ 32 →
            E.keeps keeper.old es → MayGoOn E.may_keep n es self.old }
        ensures some { (k : ℕ) ×
            HasRun k self.old self.new (E.keeps keeper.old) (E.keeps keeper.new) }
        ensures answers { AnswersRun rounds workers self.old.rounds self.new.rounds
            (λ k. HasRun k self.old self.new (E.keeps keeper.old) (E.keeps keeper.new))
            ((self.new ≡ self.old) × (keeper.new ≡ keeper.old)) result }
        ensures opening { E.opens_with keeper.new ≡ E.opens_with keeper.old }
    {
        if workers < 1 || workers > MOST_WORKERS {
            return Err(RunError::WorkersOutOfRange);
        }
        let mut observed = Observed { observer };
        let left = u32::MAX - self.rounds;
        if rounds > left {
            self.run_within(rt, left, workers, keeper, &mut observed)?;
            return Err(RunError::RoundsExhausted);
        }
        self.run_within(rt, rounds, workers, keeper, &mut observed)?;
        Ok(())
    }

    /// The last events of a run go on with those of its next rounds, since the types keep: bytes in memory, at most 16,384
    /// pages, at most 64 harts with quotas in range, and a budget of at most 1,000.
    pub fn check_to_go_on(&self)
        ensures { (n : ℕ) (es : List Event) → self.now.rounds + n < 2 ^ 32 → AreLast self.now es →
            MayGoOn IsTrace n es self.now }
    {
        let pages = self.guest.pages();
        pages.bytes_fit();
        self.guest.sizes_agree();
        let _harts = self.plan.harts();
        let _budget = self.plan.budget();
        let _pages = pages.count();
    }

    /// How many workers the next round is worth, of these at most.
    pub(crate) fn worth_workers(&self, workers: u32) -> u32
        requires { 1 ≤ workers }
        ensures some { 1 ≤ result }
        ensures most { result ≤ workers }
    {
        self.work
            .workers_for(&self.plan, self.rounds, self.running_harts(), workers)
    }

    /// Notes how many instructions the last round did, where so many were done before it.
    fn note_work(&mut self, before: u64)
        ensures { self.new ≡ self.old }
    {
        self.work
            .note(before, instructions_done(self.guest.harts()));
    }

    /// Does so many rounds of a machine whose harts have all stopped.
    pub(crate) fn pass(&mut self, rounds: u32)
        requires stopped { count_stopped self.old.harts ≡ length self.old.harts }
        requires rounds { self.old.rounds + rounds < 2 ^ 32 }
        ensures { self.new ≡ record self.old { rounds = self.old.rounds + rounds } }
    {
        self.rounds += rounds;
    }

    /// Does the rounds of all harts by a crew. Refused or not, the machine is as it was.
    pub(crate) fn do_parallel<G: Gate + Sync, R: Threads + Wait + Sync>(
        &mut self,
        crew: &Crew<'_, G, R>,
    ) -> Result<Vec<HartEnd>, OutOfMemory>
        requires workers { AreWorkers crew.now.workers }
        requires rounds { self.old.rounds + 1 < 2 ^ 32 }
        ensures stays { self.new ≡ self.old }
        ensures ends { IfOk result (λ os.
            AreOfNext (keeps_log crew.now.form) self.old os.items) }
    {
        self.guest.do_parallel(crew, &self.plan, self.rounds)
    }

    /// Does the rest of a round after the rounds of its harts, has its events kept, and notes how much work it was.
    pub(crate) fn end_round<E: EventKeeper, G, R: Threads + Sync>(
        &mut self,
        crew: &Crew<'_, G, R>,
        keeper: &mut E,
        ends: Vec<HartEnd>,
    ) -> Result<RoundNote, OutOfMemory>
        requires workers { 1 ≤ crew.now.workers }
        requires ends { AreOfNext E.logs self.old ends.items }
        requires rounds { self.old.rounds + 1 < 2 ^ 32 }
        requires sound { (es : List Event) × E.keeps keeper.old es ×
            E.may_keep (es ++ next_events self.old) }
        ensures ok { OnOk result (self.new ≡ untraced_round self.old) }
        ensures run { OnOk result (HasRun 1 self.old self.new (E.keeps keeper.old)
            (E.keeps keeper.new)) }
        ensures kept { OnOk result ((es : List Event) → E.keeps keeper.old es →
            E.keeps keeper.new (es ++ next_events self.old)) }
        ensures opening { E.opens_with keeper.new ≡ E.opens_with keeper.old }
        ensures round { IfOk result (λ n. n.round ≡ self.new.rounds) }
        ensures waited { IfOk result (λ n. n.waited ≡
            count_waiting (hart_rounds (words_of self.old.code) self.old.bytes
            (quotas_of self.old.plan self.old.rounds) self.old.harts)) }
        ensures stopped { IfOk result (λ n. n.stopped ≡ count_stopped self.new.harts) }
        ensures err { OnErr result (self.new ≡ self.old) }
        ensures untold { OnErr result ((es : List Event) → E.keeps keeper.old es →
            E.keeps keeper.new es) }
    {
        let before = self.instructions_done();
        let pages = self.guest.pages();
        pages.bytes_fit();
        self.guest.sizes_agree();
        // The types keep: at most 64 harts with quotas in range, a budget of at most 1,000, at most 16,384 pages.
        let _harts = self.plan.harts();
        let _budget = self.plan.budget();
        let _pages = pages.count();
        let counts = self
            .guest
            .do_round(crew, keeper, &self.plan, self.rounds, ends)?;
        self.rounds += 1;
        self.events += counts.events;
        self.note_work(before);
        Ok(RoundNote {
            round: self.rounds,
            waited: counts.waited,
            stopped: stopped_count(self.harts()),
        })
    }

    fn instructions_done(&self) -> u64 {
        instructions_done(self.guest.harts())
    }

    /// How many harts have not stopped.
    pub(crate) fn running_harts(&self) -> u32
        ensures { result + count_stopped self.now.harts ≡ length self.now.harts }
    {
        // At most 64.
        let _harts = self.plan.harts();
        let harts = self.guest.harts();
        harts.len() as u32 - stopped_count(harts)
    }
}
