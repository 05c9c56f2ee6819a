use crate::untraced::UntracedMachine;
use crate::visiting::{Next, Visitor};
use pages::OutOfMemory;

/// Whoever looks at a run between its rounds.
///
/// An observer is lent the machine to read, so that what it does makes no difference to the run.
pub trait Observer {
    /// Looks at the machine after one of its rounds.
    fn after_round(&mut self, machine: &UntracedMachine);
}

/// Nobody looks.
#[derive(Clone, Copy)]
pub struct Unobserved;

impl Observer for Unobserved {
    fn after_round(&mut self, _machine: &UntracedMachine) {}
}

/// Has an observer shown each round. What the observer knows of them isn't said.
#[derive(Drop)]
pub struct Observed<'a, O> {
    /// It is shown each round.
    pub observer: &'a mut O,
}

impl<'a, O: Observer> Visitor for Observed<'a, O> {
    ghost knows = { λ first v start rounds done. Unit {0} };

    ghost has_enough = { λ v u. ⊥ };

    ghost may_fail = { ⊥ };

    fn after_round(&mut self, machine: &UntracedMachine) -> Result<Next, OutOfMemory> {
        self.observer.after_round(machine);
        Ok(Next::Round)
    }
}
