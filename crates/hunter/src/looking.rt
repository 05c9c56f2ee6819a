ghost use Rattle.std.specs.Prelude.{◌≡◌, ℕ, ◌<◌, ◌≤◌, ◌+◌, ◌*◌, ◌^◌, IfOk, MatchOption, length, true, false};
ghost use Rattle.machine.specs.Machine.{Running, after_rounds};
ghost use Rattle.machine.specs.Untraced.{IsAfter, IsUntraced};
ghost use Rattle.serial_phase.specs.Decided.{are_alike};
ghost use Rattle.hunter.specs.Finding.{Moves, is_back_after, is_back_within};

use crate::going::{are_alike, asks_within, go_on, shared_copy};
use machine::UntracedMachine;
use pages::OutOfMemory;
use plan_hunt::HuntObserver;
use std::sync::Wait;
use std::thread::Threads;

/// Does up to so many rounds: as many as bring the machine back where it is now, and all where none do. Answers how many bring it
/// back.
pub(crate) fn look<O: HuntObserver, R: Threads + Wait + Sync>(
    rt: &R,
    observer: &O,
    machine: &mut UntracedMachine,
    rounds: u32,
) -> Result<Option<u32>, OutOfMemory>
    requires rounds { machine.old.rounds + rounds < 2 ^ 32 }
    requires run { (m : Running) × IsUntraced m machine.old }
    ensures run { IfOk result (λ o. MatchOption o (IsAfter rounds machine.old machine.new)
        (λ p. (1 ≤ p) × (p ≤ rounds) × IsAfter p machine.old machine.new)) }
    ensures counted { IfOk result (λ o. MatchOption o
        (machine.new.rounds ≡ machine.old.rounds + rounds)
        (λ p. machine.new.rounds ≡ machine.old.rounds + p)) }
    ensures back { (m : Running) → IsUntraced m machine.old → IfOk result (λ o. MatchOption o
        (is_back_within rounds m ≡ false) (λ p. is_back_after p m ≡ true)) }
{
    if rounds < machine.plan().row_count() {
        go_on(rt, observer, machine, rounds)?;
        return Ok(None);
    }
    let mut start = shared_copy(machine)?;
    let period = look_from(rt, observer, machine, &mut start, rounds);
    drop(start);
    period
}

/// The same with an equal machine, of which the rounds in between are done once more.
fn look_from<O: HuntObserver, R: Threads + Wait + Sync>(
    rt: &R,
    observer: &O,
    machine: &mut UntracedMachine,
    start: &mut UntracedMachine,
    rounds: u32,
) -> Result<Option<u32>, OutOfMemory>
    requires start { start.old ≡ machine.old }
    requires rounds { machine.old.rounds + rounds < 2 ^ 32 }
    requires run { (m : Running) × IsUntraced m machine.old }
    ensures run { IfOk result (λ o. MatchOption o (IsAfter rounds machine.old machine.new)
        (λ p. (1 ≤ p) × (p ≤ rounds) × IsAfter p machine.old machine.new)) }
    ensures counted { IfOk result (λ o. MatchOption o
        (machine.new.rounds ≡ machine.old.rounds + rounds)
        (λ p. machine.new.rounds ≡ machine.old.rounds + p)) }
    ensures back { (m : Running) → IsUntraced m machine.old → IfOk result (λ o. MatchOption o
        (is_back_within rounds m ≡ false) (λ p. is_back_after p m ≡ true)) }
{
    let rows = machine.plan().row_count();
    let turns = rounds / rows;
    let Some(turn) = go_back(rt, observer, machine, start, turns, rows)? else {
        go_on(rt, observer, machine, rounds - turns * rows)?;
        return Ok(None);
    };
    let period = turn * rows;
    if asks_within(rt, observer, start, period)? {
        go_on(rt, observer, machine, rounds - period)?;
        return Ok(None);
    }
    Ok(Some(period))
}

/// Does up to so many turns of the plan's rows, until the machine is like it was at their start. Answers how many that takes.
fn go_back<O: HuntObserver, R: Threads + Wait + Sync>(
    rt: &R,
    observer: &O,
    machine: &mut UntracedMachine,
    start: &UntracedMachine,
    turns: u32,
    rows: u32,
) -> Result<Option<u32>, OutOfMemory>
    requires start { start.now ≡ machine.old }
    requires rounds { machine.old.rounds + turns * rows < 2 ^ 32 }
    ensures run { IfOk result (λ o. MatchOption o (IsAfter (turns * rows) machine.old machine.new)
        (λ t. (1 ≤ t) × (t ≤ turns) × IsAfter (t * rows) machine.old machine.new)) }
    ensures counted { IfOk result (λ o. MatchOption o
        (machine.new.rounds ≡ machine.old.rounds + turns * rows)
        (λ t. machine.new.rounds ≡ machine.old.rounds + t * rows)) }
    ensures first { (m : Running) → IsUntraced m machine.old → IfOk result (λ o. MatchOption o
        (Moves rows (turns + 1) m) (λ t. Moves rows t m ×
        (are_alike m.state (after_rounds (t * rows) m).state ≡ true))) }
{
    for turn in 0..turns {
        go_on(rt, observer, machine, rows)?;
        if are_alike(start, machine) {
            return Ok(Some(turn + 1));
        }
    }
    Ok(None)
}
