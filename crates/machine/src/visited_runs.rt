ghost use Rattle.std.specs.Prelude.{◌≡◌, ◌<◌, ◌≤◌, ◌+◌, ◌^◌, ◌⊎◌, ℕ, List, IfOk, OnOk, OnErr};
ghost use Rattle.round_schedule.specs.declared.event.Event.{Event};
ghost use Rattle.machine.specs.Machine.{after_rounds};
ghost use Rattle.machine.specs.Untraced.{HasRun, IsUntraced, MayGoOn, Untraced};
ghost use Rattle.machine.specs.Walks.{HasDone, HasSeenAll, IsCutOff};
ghost use Rattle.round_schedule.specs.Bounds.{AreWorkers};

use crate::machine::Machine;
use crate::untraced::UntracedMachine;
use crate::visiting::{UntilStopped, Visitor};
use guest_rounds::{EventKeeper, NoTrace};
use pages::OutOfMemory;
use std::sync::Wait;
use std::thread::Threads;

impl Machine {
    /// What `UntracedMachine::walk` does. The visitor is shown the machine without its trace.
    ///
    /// # Errors
    ///
    /// Those of `UntracedMachine::walk`.
    pub fn walk<V: Visitor, R: Threads + Wait + Sync>(
        &mut self,
        rt: &R,
        rounds: u32,
        workers: u32,
        visitor: &mut V,
    ) -> Result<u32, OutOfMemory>
        requires workers { AreWorkers workers }
        requires rounds { self.old.state.rounds + rounds < 2 ^ 32 }
        requires known { (u : Untraced) → IsUntraced self.old u →
            V.knows visitor.old visitor.old u rounds 0 }
        ensures done { IfOk result (λ k. self.new ≡ after_rounds k self.old) }
        ensures most { IfOk result (λ k. k ≤ rounds) }
        ensures known { IfOk result (λ k. (u : Untraced) × IsUntraced self.old u ×
            V.knows visitor.old visitor.new u rounds k) }
        ensures ended { IfOk result (λ k. (k ≡ rounds) ⊎ ((u : Untraced) ×
            IsUntraced self.new u × V.has_enough visitor.new u)) }
        ensures cut_off { OnErr result ((k : ℕ) × IsCutOff V.may_fail rounds k ×
            (self.new ≡ after_rounds k self.old)) }
    {
        self.bare.check_to_go_on();
        self.bare
            .walk_keeping(rt, rounds, workers, &mut self.trace, visitor)
    }

    /// What `UntracedMachine::run_visited` does. The visitor is shown the machine without its trace.
    ///
    /// # Errors
    ///
    /// Those of `UntracedMachine::run_visited`.
    pub fn run_visited<V: Visitor, R: Threads + Wait + Sync>(
        &mut self,
        rt: &R,
        rounds: u32,
        workers: u32,
        visitor: &mut V,
    ) -> Result<(), OutOfMemory>
        requires workers { AreWorkers workers }
        requires rounds { self.old.state.rounds + rounds < 2 ^ 32 }
        requires known { (u : Untraced) → IsUntraced self.old u →
            V.knows visitor.old visitor.old u rounds 0 }
        ensures done { OnOk result (self.new ≡ after_rounds rounds self.old) }
        ensures known { OnOk result ((u : Untraced) × IsUntraced self.old u ×
            HasSeenAll V.knows visitor.old visitor.new u rounds) }
        ensures cut_off { OnErr result ((k : ℕ) × IsCutOff V.may_fail rounds k ×
            (self.new ≡ after_rounds k self.old)) }
    {
        self.bare.check_to_go_on();
        self.bare
            .run_within(rt, rounds, workers, &mut self.trace, visitor)
    }
}

impl UntracedMachine {
    /// Does so many rounds, on 1 to 16 workers, and shows the machine to a visitor after each round in which a hart runs. Once all
    /// harts have stopped, the rounds that are left are not shown, and cost nothing. That the visitor has enough ends no run. It
    /// may wait.
    ///
    /// # Errors
    ///
    /// `OutOfMemory`, of the machine or of the visitor. The rounds that are done are whole.
    pub fn run_visited<V: Visitor, R: Threads + Wait + Sync>(
        &mut self,
        rt: &R,
        rounds: u32,
        workers: u32,
        visitor: &mut V,
    ) -> Result<(), OutOfMemory>
        requires workers { AreWorkers workers }
        requires rounds { self.old.rounds + rounds < 2 ^ 32 }
        requires known { V.knows visitor.old visitor.old self.old rounds 0 }
        ensures done { OnOk result (HasDone rounds self.old self.new) }
        ensures known { OnOk result (HasSeenAll V.knows visitor.old visitor.new self.old rounds) }
        ensures cut_off { OnErr result ((k : ℕ) × IsCutOff V.may_fail rounds k ×
            HasDone k self.old self.new) }
    {
        self.run_within(rt, rounds, workers, &mut NoTrace, visitor)
    }

    /// The same, and has the events of these rounds kept.
    pub(crate) fn run_within<E: EventKeeper, V: Visitor, R: Threads + Wait + Sync>(
        &mut self,
        rt: &R,
        rounds: u32,
        workers: u32,
        keeper: &mut E,
        visitor: &mut V,
    ) -> Result<(), OutOfMemory>
        requires workers { AreWorkers workers }
        requires rounds { self.old.rounds + rounds < 2 ^ 32 }
        requires sound { (es : List Event) × E.keeps keeper.old es ×
            MayGoOn E.may_keep rounds es self.old }
        requires known { V.knows visitor.old visitor.old self.old rounds 0 }
        ensures done { OnOk result (HasRun rounds self.old self.new (E.keeps keeper.old)
            (E.keeps keeper.new)) }
        ensures known { OnOk result (HasSeenAll V.knows visitor.old visitor.new self.old rounds) }
        ensures cut_off { OnErr result ((k : ℕ) × IsCutOff V.may_fail rounds k ×
            HasRun k self.old self.new (E.keeps keeper.old) (E.keeps keeper.new)) }
        ensures opening { E.opens_with keeper.new ≡ E.opens_with keeper.old }
    {
        if self.running_harts() == 0 {
            self.pass(rounds);
            return Ok(());
        }
        let mut until_stopped = UntilStopped { visitor };
        let done = self.walk_keeping(rt, rounds, workers, keeper, &mut until_stopped)?;
        if done < rounds {
            self.pass(rounds - done);
            return Ok(());
        }
        Ok(())
    }
}
