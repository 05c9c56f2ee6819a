ghost use Rattle.std.specs.Prelude.{IfOk, IfSome};

use crate::departing::Departing;
use crate::guest::{FenceGuest, Span};
use pages::OutOfMemory;
use plan_hunt::{Ending, HuntObserver};

/// What an execution has come to.
#[derive(Drop)]
pub struct Came {
    pub ending: Ending,
    /// After how many steps.
    pub steps: u64,
}

/// Who makes executions by their numbers. No definition says which execution a number stands for: so that is a relation, which a search can
/// only get by a call with this number.
pub trait Executer {
    ghost use Rattle.std.specs.Prelude.{ℕ};
    ghost use Rattle.fence_trials.specs.declared.departing.Departing.{Departing as Departs};
    ghost use Rattle.fence_trials.specs.declared.guest.FenceGuest.{FenceGuest as Guest};
    ghost use Rattle.plan_hunt.specs.Endings.{Ended};

    /// An execution of a guest that has this number and departs so comes to this.
    ghost comes_to: { Guest → Departs → ℕ → Ended → Type 0 };

    /// Makes the execution of a number, of whose rounds an observer learns. Where it is none, since a store came early that its hart didn't do,
    /// it comes to nothing.
    ///
    /// # Errors
    ///
    /// `OutOfMemory` alone.
    fn execute<O: HuntObserver>(
        &self,
        guest: &FenceGuest<'_>,
        departing: Departing<'_>,
        number: u32,
        span: Span,
        observer: &O,
    ) -> Result<Option<Came>, OutOfMemory>
        ensures { IfOk result (λ found. IfSome found (λ c.
            comes_to guest.now departing.entry number c.ending)) };
}

/// The executions of timed_machine.
#[derive(Clone, Copy)]
pub struct TimedExecuter;

impl Executer for TimedExecuter {
    ghost use Rattle.std.specs.Prelude.{⊤};

    ghost comes_to = { λ _ _ _ _. ⊤ };

    fn execute<O: HuntObserver>(
        &self,
        guest: &FenceGuest<'_>,
        departing: Departing<'_>,
        number: u32,
        span: Span,
        observer: &O,
    ) -> Result<Option<Came>, OutOfMemory> {
        guest.come_to(number, departing, span, observer)
    }
}
