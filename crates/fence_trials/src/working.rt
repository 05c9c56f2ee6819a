ghost use Rattle.std.specs.Prelude.{◌≡◌, ◌+◌, ◌<◌, ◌^◌, All, IfOk, IfSome, length};
ghost use Rattle.fence_trials.specs.Trials.{WasTried};

use crate::executer::Executer;
use crate::guest::FenceGuest;
use crate::observing::TrialObserver;
use crate::ordinary::Ordinary;
use crate::trying::{Trial, try_number};
use many_makers::make_each;
use pages::OutOfMemory;
use plan_hunt::{HuntObserver, Task, Until};
use std::alloc::Global;
use std::thread::Threads;

/// What came of the execution of a number.
#[derive(Drop)]
pub struct Tried {
    pub number: u32,
    pub trial: Trial,
}

/// What comes of a block of executions, found by workers that make executions at the same time, a slot for each number. A slot is empty where
/// they left the execution out.
///
/// # Errors
///
/// `OutOfMemory` alone.
pub fn try_block<E: Executer + Sync, O: HuntObserver + TrialObserver + Sync, R: Threads + Sync>(
    rt: &R,
    executer: &E,
    guest: &FenceGuest<'_>,
    ordinary: &Ordinary,
    task: &Task<'_, O>,
    workers: u32,
) -> Result<Vec<Option<Tried>>, OutOfMemory>
    requires few { task.now.first + task.now.count < 2 ^ 32 }
    ensures count { IfOk result (λ v. length v.items ≡ task.now.count) }
    // What is in a slot came of the execution of its number.
    ensures tried { IfOk result (λ v. All (λ s.
        IfSome s (WasTried (E.comes_to guest.now) ordinary.now)) v.items) }
{
    let attempt = |index: u32|
        requires { (task.now.first + task.now.count < 2 ^ 32) × (index < task.now.count) }
        ensures { IfSome result (WasTried (E.comes_to guest.entry.now) ordinary.entry.now) }
    { try_at(executer, guest, ordinary, task, index) };
    let is_last = |tried: &Tried| is_last(task, tried);
    make_each(rt, guest.alloc, task.count, workers, &attempt, &is_last)
}

/// What comes of the number at an index of the block; none where there is no more time, or it was refused memory.
fn try_at<E: Executer, O: HuntObserver + TrialObserver>(
    executer: &E,
    guest: &FenceGuest<'_>,
    ordinary: &Ordinary,
    task: &Task<'_, O>,
    index: u32,
) -> Option<Tried>
    requires few { task.now.first + task.now.count < 2 ^ 32 }
    requires within { index < task.now.count }
    ensures { IfSome result (WasTried (E.comes_to guest.now) ordinary.now) }
{
    if task.is_out_of_time() {
        return None;
    }
    let number = task.first + index;
    let trial = try_number(executer, guest, ordinary, number, task.observer).ok()?;
    task.observer.after_plan();
    Some(Tried { number, trial })
}

/// Whether the trials are over with what came of a number.
fn is_last<O: HuntObserver + TrialObserver>(task: &Task<'_, O>, tried: &Tried) -> bool {
    task.extent.until != Until::Done && task.observer.is_over_with(&tried.trial) == Ok(true)
}
