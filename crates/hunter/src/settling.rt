ghost use Rattle.std.specs.Prelude.{◌≡◌, ◌<◌, ◌≤◌, ◌+◌, ◌^◌, IfOk, false};
ghost use Rattle.machine.specs.Untraced.{IsAfter};

use crate::comparing::are_same_harts;
use crate::going::go_on;
use machine::UntracedMachine;
use pages::OutOfMemory;
use plan_hunt::HuntObserver;
use std::alloc::Global;
use std::sync::Wait;
use std::thread::Threads;

/// After how many rounds at least harts are compared.
const FEW: u32 = 16;

/// Does up to so many rounds, until the harts come back to where they are now, and answers how many. Where it is not asked to, it
/// does none.
///
/// A run whose harts come back may go round: only then it is worth a look at all of the machine. So this decides nothing.
pub(crate) fn settle<O: HuntObserver, R: Threads + Wait + Sync>(
    rt: &R,
    observer: &O,
    alloc: Global,
    machine: &mut UntracedMachine,
    rounds: u32,
    asked: bool,
) -> Result<u32, OutOfMemory>
    requires rounds { machine.old.rounds + rounds < 2 ^ 32 }
    ensures run { IfOk result (λ n. (n ≤ rounds) × IsAfter n machine.old machine.new) }
    ensures counted { IfOk result (λ n. machine.new.rounds ≡ machine.old.rounds + n) }
    ensures unasked { asked ≡ false → IfOk result (λ n. n ≡ 0) }
{
    if !asked {
        return Ok(0);
    }
    let Ok(harts) = Vec::from_slice(alloc, machine.harts()) else {
        return Err(OutOfMemory);
    };
    let step = turns_of(machine.plan().row_count());
    let mut left = rounds;
    while left >= step {
        go_on(rt, observer, machine, step)?;
        left -= step;
        if are_same_harts(&harts, machine.harts()) {
            return Ok(rounds - left);
        }
    }
    go_on(rt, observer, machine, left)?;
    Ok(rounds)
}

/// How many rounds whole turns of so many rows take, of which there are enough that a comparison costs little beside them.
fn turns_of(rows: u32) -> u32
    requires some { 1 ≤ rows }
    requires few { rows ≤ 256 }
    ensures { 1 ≤ result }
{
    if rows < FEW {
        rows * (1 + (FEW - 1) / rows)
    } else {
        rows
    }
}
