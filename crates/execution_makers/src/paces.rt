use machine::{Observer, UntracedMachine};
use std::alloc::Global;

/// How far the harts were after each round, beside what another observer sees.
#[derive(Drop)]
pub(crate) struct Paces<'a, O: Observer> {
    pub(crate) observer: &'a mut O,
    /// The numbers of the rounds.
    pub(crate) rounds: Vec<u32>,
    /// For each of these rounds, how many instructions each hart had done.
    pub(crate) done: Vec<u64>,
    /// Whether a request for memory was refused, so that some are missing.
    pub(crate) is_short: bool,
}

impl<'a, O: Observer> Paces<'a, O> {
    /// Nothing seen yet.
    pub(crate) fn new(alloc: Global, observer: &'a mut O) -> Paces<'a, O> {
        Paces {
            observer,
            rounds: Vec::new(alloc),
            done: Vec::new(alloc),
            is_short: false,
        }
    }
}

impl<O: Observer> Observer for Paces<'_, O> {
    fn after_round(&mut self, machine: &UntracedMachine) {
        self.observer.after_round(machine);
        if self.rounds.push(machine.rounds()).is_err() {
            self.is_short = true;
        }
        for hart in machine.harts() {
            if self.done.push(hart.done).is_err() {
                self.is_short = true;
            }
        }
    }
}
