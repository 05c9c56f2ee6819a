ghost use Rattle.std.specs.Prelude.{◌≡◌, ◌+◌, ◌<◌, ◌^◌, IfOk, length};

use crate::guest::Guest;
use crate::looking::seen_of;
use hunter::ending_of_stop;
use many_makers::make_each;
use pages::OutOfMemory;
use plan_hunt::{Ending, HartEnding, HuntObserver, Task};
use std::alloc::Global;
use std::thread::Threads;
use timed_machine::TimedMachine;

/// The endings of a block of executions, found by workers that make executions at the same time, a slot for each number. A slot is empty
/// where they left the execution out.
///
/// # Errors
///
/// `OutOfMemory` alone.
pub(crate) fn execute_block<O: HuntObserver + Sync, R: Threads + Sync>(
    rt: &R,
    guest: &Guest<'_>,
    task: &Task<'_, O>,
    workers: u32,
) -> Result<Vec<Option<Ending>>, OutOfMemory>
    requires few { task.now.first + task.now.count < 2 ^ 32 }
    ensures { IfOk result (λ v. length v.items ≡ task.now.count) }
{
    let execute = |index: u32|
        requires { (task.now.first + task.now.count < 2 ^ 32) × (index < task.now.count) }
    { execute_at(guest, task, index) };
    let is_last = |ending: &Ending| task.is_last(ending);
    make_each(rt, guest.alloc, task.count, workers, &execute, &is_last)
}

/// The ending of the execution at an index of the block; none where there is no more time, or it was refused memory.
fn execute_at<O: HuntObserver>(guest: &Guest<'_>, task: &Task<'_, O>, index: u32) -> Option<Ending>
    requires few { task.now.first + task.now.count < 2 ^ 32 }
    requires within { index < task.now.count }
{
    if task.is_out_of_time() {
        return None;
    }
    let ending = executed(guest, task.first + index, task.observer).ok()?;
    task.observer.after_plan();
    Some(ending)
}

/// The ending of the execution of a number. An observer learns of its rounds.
pub(crate) fn executed<O: HuntObserver>(
    guest: &Guest<'_>,
    number: u32,
    observer: &O,
) -> Result<Ending, OutOfMemory> {
    let machine = guest.maker.execute_observed(number, observer)?;
    ending_of(guest, &machine)
}

/// The ending that a machine has come to.
fn ending_of(guest: &Guest<'_>, machine: &TimedMachine) -> Result<Ending, OutOfMemory> {
    let stops = stops_of(guest.alloc, machine, guest.opening.harts.len())?;
    let output = Vec::from_slice(guest.alloc, machine.output())?;
    let seen = seen_of(guest.alloc, machine.pages(), guest.ranges)?;
    Ok(Ending::new(stops, output, seen))
}

/// How each of so many harts ended.
fn stops_of(
    alloc: Global,
    machine: &TimedMachine,
    harts: usize,
) -> Result<Vec<HartEnding>, OutOfMemory> {
    let mut stops = Vec::new(alloc);
    for number in 0..harts {
        if let Some(hart) = machine.hart(number) {
            stops.push(ending_of_stop(hart.stop))?;
        }
    }
    Ok(stops)
}
