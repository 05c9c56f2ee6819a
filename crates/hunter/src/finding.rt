ghost use Rattle.std.specs.Prelude.{◌≡◌, ◌⊎◌, ◌<◌, ◌≤◌, ◌+◌, ◌^◌, IfOk, OnOk};
ghost use Rattle.machine.specs.Machine.{Running, after_rounds};
ghost use Rattle.machine.specs.Untraced.{IsUntraced};
ghost use Rattle.hunter.specs.Finding.{IsLike, loops_in};

use crate::going::{go_on, has_running_hart};
use crate::looking::look;
use crate::settling::settle;
use machine::UntracedMachine;
use pages::OutOfMemory;
use plan_hunt::HuntObserver;
use std::alloc::Global;
use std::sync::Wait;
use std::thread::Threads;

/// How many rounds are done before harts are kept.
const FIRST_KEPT: u32 = 64;

/// Runs a machine to the end of so many rounds, and answers whether harts run there for ever, since the run goes round. It may wait.
///
/// A run that is found to is cut short. The machine is then like the one after all the rounds in all that later rounds depend on, but
/// it counts fewer rounds and instructions.
///
/// # Errors
///
/// `OutOfMemory` alone.
pub fn run_or_loop<O: HuntObserver, R: Threads + Wait + Sync>(
    rt: &R,
    observer: &O,
    alloc: Global,
    machine: &mut UntracedMachine,
    rounds: u32,
) -> Result<bool, OutOfMemory>
    requires rounds { machine.old.rounds + rounds < 2 ^ 32 }
    requires run { (m : Running) × IsUntraced m machine.old }
    ensures loops { (m : Running) → IsUntraced m machine.old →
        IfOk result (λ l. l ≡ loops_in rounds m) }
    ensures ending { (m : Running) → IsUntraced m machine.old →
        OnOk result (IsLike (after_rounds rounds m) machine.new) }
{
    let half = rounds / 2;
    let mut done = FIRST_KEPT.min(half);
    go_on(rt, observer, machine, done)?;
    while done < rounds {
        if !has_running_hart(machine) {
            go_on(rt, observer, machine, rounds - done)?;
            return Ok(false);
        }
        let part = next_part(done, half, rounds);
        let gone = settle(rt, observer, alloc, machine, part, done < half)?;
        if let Some(period) = look(rt, observer, machine, part - gone)? {
            go_on(
                rt,
                observer,
                machine,
                (rounds - done - gone - period) % period,
            )?;
            return Ok(has_running_hart(machine));
        }
        done += part;
    }
    Ok(false)
}

/// How many rounds come next: as many as are done, but no more than half of all are done before the rest.
fn next_part(done: u32, half: u32, rounds: u32) -> u32
    requires some { (half ≡ 0) ⊎ (1 ≤ done) }
    requires more { done < rounds }
    ensures early { done < half → (1 ≤ result) × (done + result ≤ half) }
    ensures last { half ≤ done → done + result ≡ rounds }
{
    if done < half {
        done.min(half - done)
    } else {
        rounds - done
    }
}
