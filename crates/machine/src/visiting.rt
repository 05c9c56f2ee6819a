ghost use Rattle.std.specs.Prelude.{◌≡◌, ◌<◌, ◌+◌, ℕ, Ok, OnOk, OnErr};
ghost use Rattle.machine.specs.Untraced.{Untraced};
ghost use Rattle.machine.specs.Walks.{HasDone, HasStopped};

use crate::untraced::UntracedMachine;
use pages::OutOfMemory;

/// Whether a walk goes on.
#[derive(Clone, Copy)]
pub enum Next {
    /// The next round is to be done.
    Round,
    /// No further round is to be done.
    Enough,
}

/// Whoever is shown the machine after each round of a walk over a run, and may end the walk.
///
/// A visitor is lent the machine to read, so that what it does makes no difference to the rounds. What it says that it knows
/// holds after each of them, and so after the walk.
pub trait Visitor {
    // What one that began as the first of these knows, once so many rounds are done, of a run that began so and is to have so
    // many: the run's start, how many rounds it is to have, how many are done.
    ghost knows: { Self → Self → Untraced → ℕ → ℕ → Type 0 };

    // It wants no further round after this machine.
    ghost has_enough: { Self → Untraced → Type 0 };

    // It may be refused memory.
    ghost may_fail: { Type 0 };

    /// Looks at the machine after one more round.
    fn after_round(&mut self, machine: &UntracedMachine) -> Result<Next, OutOfMemory>
        requires { (first : Self) × (start : Untraced) × (rounds : ℕ) × (done : ℕ) × (done <
            rounds) × knows first self.old start rounds done ×
            HasDone (done + 1) start machine.now }
        ensures known { OnOk result ((first : Self) (start : Untraced) (rounds done : ℕ) → done <
            rounds → knows first self.old start rounds done → HasDone (done + 1) start machine.now →
            knows first self.new start rounds (done + 1)) }
        ensures enough { result ≡ Ok Next.Enough → has_enough self.new machine.now }
        ensures failed { OnErr result may_fail };
}

/// Shows each round to another visitor, until no hart runs. That the other one has enough makes no difference.
#[derive(Drop)]
pub struct UntilStopped<'a, V> {
    /// It is shown each round.
    pub visitor: &'a mut V,
}

impl<'a, V: Visitor> Visitor for UntilStopped<'a, V> {
    // It lends the rounds to the same visitor all along, and knows what that one knows.
    ghost knows = { λ first v start rounds done.
        (v.visitor.ghost_name ≡ first.visitor.ghost_name) ×
        V.knows first.visitor.now v.visitor.now start rounds done };

    ghost has_enough = { λ v u. HasStopped u };

    ghost may_fail = { V.may_fail };

    fn after_round(&mut self, machine: &UntracedMachine) -> Result<Next, OutOfMemory> {
        self.visitor.after_round(machine)?;
        if machine.running_harts() == 0 {
            Ok(Next::Enough)
        } else {
            Ok(Next::Round)
        }
    }
}
