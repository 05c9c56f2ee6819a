//! What a picture shows of a run beside its trace, kept while the rounds are done.

ghost use Rattle.std.specs.Prelude.{◌≡◌, ◌⊎◌, ◌+◌, ℕ, IfOk, IfErr, OnOk, MatchOption, length};
ghost use Rattle.host_io.specs.declared.error.RunError.TheVariants as refusals;
ghost use Rattle.machine.specs.Machine.{Running, after_rounds};
ghost use Rattle.machine.specs.Untraced.{IsUntraced};
ghost use Rattle.drawing.specs.DrawnRounds.{AreEnds, HasDrawn, HoldsDrawn};

use hart_step::Hart;
use host_io::RunError;
use machine::{Machine, Next, UntracedMachine, Visitor};
use pages::OutOfMemory;
use std::alloc::Global;

/// The machine before the first round that is drawn, and the harts after the last one.
#[derive(Drop)]
pub(crate) struct DrawnRounds {
    alloc: Global,
    /// How many rounds come before the first one that is drawn.
    before: u32,
    /// The last round that is drawn.
    last: u32,
    /// The machine before the first round that is drawn, once that is to be done. Until then it is the one before the first round.
    pub(crate) start: UntracedMachine,
    /// The harts after the last round that is drawn, once it is done.
    ends: Option<Vec<Hart>>,
}

impl DrawnRounds {
    /// Of the run of a machine that was just opened, before its first round.
    pub(crate) fn of(
        alloc: Global,
        machine: &Machine,
        before: u32,
        last: u32,
    ) -> Result<DrawnRounds, RunError>
        requires opened { machine.now.state.rounds ≡ 0 }
        ensures before { IfOk result (λ d. d.before ≡ before) }
        ensures last { IfOk result (λ d. d.last ≡ last) }
        ensures start { IfOk result (λ d. IsUntraced machine.now d.start) }
        ensures drawn { IfOk result (λ d. (m : Running) → IsUntraced m d.start →
            HasDrawn m before last d.start d.ends 0) }
        ensures refused { IfErr result (λ e. e ≡ refusals.OutOfMemory) }
    {
        let start = machine.copy_untraced()?;
        let ends = ends_of(alloc, machine, last)?;
        Ok(DrawnRounds {
            alloc,
            before,
            last,
            start,
            ends,
        })
    }

    /// Keeps of the machine after one more round what is to be drawn of it.
    fn note(&mut self, machine: &UntracedMachine) -> Result<(), OutOfMemory>
        ensures before { self.new.before ≡ self.old.before }
        ensures last { self.new.last ≡ self.old.last }
        ensures drawn { OnOk result ((m : Running) (done : ℕ) → machine.now.rounds ≡ done + 1 →
            IsUntraced (after_rounds (done + 1) m) machine.now →
            HasDrawn m self.old.before self.old.last self.old.start self.old.ends done →
            HasDrawn m self.old.before self.old.last self.new.start self.new.ends (done + 1)) }
    {
        self.note_start(machine)?;
        self.note_ends(machine)
    }

    /// Keeps the machine if the next round is the first one that is drawn.
    fn note_start(&mut self, machine: &UntracedMachine) -> Result<(), OutOfMemory>
        ensures before { self.new.before ≡ self.old.before }
        ensures last { self.new.last ≡ self.old.last }
        ensures ends { self.new.ends ≡ self.old.ends }
        ensures start { OnOk result (
            ((machine.now.rounds ≡ self.old.before) × (self.new.start ≡ machine.now)) ⊎
            ((machine.now.rounds ≡ self.old.before → ⊥) × (self.new.start ≡ self.old.start))) }
    {
        if machine.rounds() != self.before {
            return Ok(());
        }
        let Ok(copy) = machine.copy() else {
            return Err(OutOfMemory);
        };
        self.start = copy;
        Ok(())
    }

    /// Keeps the harts if the round was the last one that is drawn.
    fn note_ends(&mut self, machine: &UntracedMachine) -> Result<(), OutOfMemory>
        ensures before { self.new.before ≡ self.old.before }
        ensures last { self.new.last ≡ self.old.last }
        ensures start { self.new.start ≡ self.old.start }
        ensures ends { OnOk result (
            ((machine.now.rounds ≡ self.old.last) ×
            MatchOption self.new.ends ⊥ (λ v. v.items ≡ machine.now.harts)) ⊎
            ((machine.now.rounds ≡ self.old.last → ⊥) × (self.new.ends ≡ self.old.ends))) }
    {
        if machine.rounds() != self.last {
            return Ok(());
        }
        self.ends = Some(copied(self.alloc, machine.harts())?);
        Ok(())
    }

    /// The harts before the first round that is drawn, by the machine after all rounds: if that round wasn't done, no hart ran any more.
    pub(crate) fn harts_before<'a>(&'a self, machine: &'a Machine) -> &'a [Hart]
        ensures harts { ((self.now.start.rounds ≡ self.now.before) ×
            (result.now ≡ self.now.start.harts)) ⊎
            ((self.now.start.rounds ≡ self.now.before → ⊥) ×
            (result.now ≡ machine.now.state.harts)) }
        ensures count { (length result.now ≡ self.now.start.plan.harts) ⊎
            (length result.now ≡ machine.now.plan.harts) }
    {
        if self.start.rounds() == self.before {
            self.start.harts()
        } else {
            machine.harts()
        }
    }

    /// Those after the last round that is drawn.
    pub(crate) fn harts_after<'a>(&'a self, machine: &'a Machine) -> &'a [Hart]
        ensures { MatchOption self.now.ends (result.now ≡ machine.now.state.harts)
            (λ v. result.now ≡ v.items) }
    {
        match &self.ends {
            Some(harts) => harts,
            None => machine.harts(),
        }
    }
}

/// The harts of a machine that was just opened, if no round is drawn.
fn ends_of(alloc: Global, machine: &Machine, last: u32) -> Result<Option<Vec<Hart>>, OutOfMemory>
    requires opened { machine.now.state.rounds ≡ 0 }
    ensures { IfOk result (λ e. (m : Running) → m.state.harts ≡ machine.now.state.harts →
        AreEnds m last 0 e) }
{
    if last > 0 {
        return Ok(None);
    }
    Ok(Some(copied(alloc, machine.harts())?))
}

fn copied(alloc: Global, harts: &[Hart]) -> Result<Vec<Hart>, OutOfMemory>
    ensures { IfOk result (λ v. v.items ≡ harts.now) }
{
    Ok(Vec::from_slice(alloc, harts)?)
}

/// Shows each round of a run to another visitor, and keeps what is to be drawn of it.
#[derive(Drop)]
pub(crate) struct Drawing<'a, V> {
    /// It is shown each round.
    pub(crate) visitor: &'a mut V,
    /// What is kept.
    pub(crate) drawn: &'a mut DrawnRounds,
}

impl<'a, V: Visitor> Visitor for Drawing<'a, V> {
    ghost knows = { λ first v start rounds done.
        (v.visitor.ghost_name ≡ first.visitor.ghost_name) ×
        (v.drawn.ghost_name ≡ first.drawn.ghost_name) ×
        V.knows first.visitor.now v.visitor.now start rounds done ×
        HoldsDrawn first.drawn.now v.drawn.now start done };

    ghost has_enough = { λ v u. ⊥ };

    ghost may_fail = { Unit {0} };

    fn after_round(&mut self, machine: &UntracedMachine) -> Result<Next, OutOfMemory> {
        self.visitor.after_round(machine)?;
        self.drawn.note(machine)?;
        Ok(Next::Round)
    }
}
