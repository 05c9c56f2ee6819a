ghost use Rattle.std.specs.Prelude.{◌≡◌, ◌↔◌, ◌<◌, ◌+◌, ◌^◌, IfOk, IsTrue, OnOk};
ghost use Rattle.round_planner.specs.Quotas.{quotas_of};
ghost use Rattle.hart_step.specs.Words.{words_of};
ghost use Rattle.machine.specs.Machine.{Running};
ghost use Rattle.machine.specs.Untraced.{IsAfter, IsUntraced};
ghost use Rattle.serial_phase.specs.Asking.{asks_in_round};
ghost use Rattle.serial_phase.specs.Decided.{are_alike};
ghost use Rattle.serial_phase.specs.Forgetting.{asks_number};
ghost use Rattle.hunter.specs.Finding.{AreSame, asks_within, some_run};

use crate::comparing::{are_same_harts, are_same_pages};
use machine::{Observer, UntracedMachine};
use pages::OutOfMemory;
use past_harts::asks_number;
use plan_hunt::{HuntObserver, RoundCount};
use std::sync::Wait;
use std::thread::Threads;

/// Counts a run's rounds.
#[derive(Drop)]
struct Counted<'a, O>(RoundCount<'a, O>);

impl<O: HuntObserver> Observer for Counted<'_, O> {
    fn after_round(&mut self, _machine: &UntracedMachine) {
        self.0.add();
    }
}

/// Does so many rounds.
pub(crate) fn go_on<O: HuntObserver, R: Threads + Wait + Sync>(
    rt: &R,
    observer: &O,
    machine: &mut UntracedMachine,
    rounds: u32,
) -> Result<(), OutOfMemory>
    requires { machine.old.rounds + rounds < 2 ^ 32 }
    ensures run { OnOk result (IsAfter rounds machine.old machine.new) }
    ensures counted { OnOk result (machine.new.rounds ≡ machine.old.rounds + rounds) }
{
    let mut counted = Counted(RoundCount::new(observer));
    let answer = machine.run_observed(rt, rounds, 1, &mut counted);
    counted.0.end();
    // No other refusal is left.
    match answer {
        Ok(()) => Ok(()),
        Err(_) => Err(OutOfMemory),
    }
}

/// An equal machine.
pub(crate) fn shared_copy(machine: &mut UntracedMachine) -> Result<UntracedMachine, OutOfMemory>
    ensures same { IfOk result (λ u. u ≡ machine.old) }
    ensures stays { machine.new ≡ machine.old }
{
    match machine.share() {
        Ok(copy) => Ok(copy),
        Err(_) => Err(OutOfMemory),
    }
}

/// Whether some hart runs.
pub(crate) fn has_running_hart(machine: &UntracedMachine) -> bool
    ensures { result ≡ some_run machine.now.harts }
{
    machine.harts().iter().any(|hart| hart.stop.is_none())
}

/// Whether all that later rounds depend on is the same in two machines.
pub(crate) fn are_alike(one: &UntracedMachine, other: &UntracedMachine) -> bool
    ensures { (m n : Running) → IsUntraced m one.now → IsUntraced n other.now →
        result ≡ are_alike m.state n.state }
{
    // There is one entry for each hart.
    let _first = one.reservations();
    let _second = other.reservations();
    are_same(one, other)
}

/// Whether two machines have the same harts, but for their counts, reservations, console and bytes. Those of a run that moves on
/// mostly differ at a pc.
fn are_same(one: &UntracedMachine, other: &UntracedMachine) -> bool
    ensures { IsTrue result ↔ AreSame one.now other.now }
{
    are_same_harts(one.harts(), other.harts())
        && one.reservations().is_same(other.reservations())
        && one.console().is_same(other.console())
        && are_same_pages(one.pages(), other.pages())
}

/// Whether a hart asks for the number of a round in one of the next so many rounds. They are done up to the first in which one
/// does.
pub(crate) fn asks_within<O: HuntObserver, R: Threads + Wait + Sync>(
    rt: &R,
    observer: &O,
    machine: &mut UntracedMachine,
    rounds: u32,
) -> Result<bool, OutOfMemory>
    requires rounds { machine.old.rounds + rounds < 2 ^ 32 }
    requires run { (m : Running) × IsUntraced m machine.old }
    ensures { (m : Running) → IsUntraced m machine.old →
        IfOk result (λ b. b ≡ asks_within rounds m) }
{
    for _round in 0..rounds {
        if asks_in_next(rt, machine)? {
            return Ok(true);
        }
        go_on(rt, observer, machine, 1)?;
    }
    Ok(false)
}

/// Whether a hart does in the next round.
fn asks_in_next<R: Threads + Wait + Sync>(
    rt: &R,
    machine: &mut UntracedMachine,
) -> Result<bool, OutOfMemory>
    requires rounds { machine.old.rounds + 1 < 2 ^ 32 }
    requires run { (m : Running) × IsUntraced m machine.old }
    ensures asks { (m : Running) → IsUntraced m machine.old → IfOk result (λ b. b ≡
        asks_in_round (words_of m.code) (asks_number m.code) m.plan.budget (quotas_of m.plan)
        m.state) }
    ensures stays { machine.new ≡ machine.old }
{
    let there = shared_copy(machine)?;
    match asks_number(rt, there) {
        Ok(asks) => Ok(asks),
        Err(_) => Err(OutOfMemory),
    }
}
