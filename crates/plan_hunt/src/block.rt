ghost use Rattle.std.specs.Prelude.{◌≡◌, ◌+◌, ◌<◌, ◌≤◌, ◌^◌, [], All, IfOk, IfSome, None, OnOk, false, length};
ghost use Rattle.plan_hunt.specs.Extents.{IsTally};
ghost use Rattle.plan_hunt.specs.Slots.{AreSlots};
ghost use denote.Param.Send.{IsSync};

use crate::adding::add;
use crate::ending::Ending;
use crate::extent::Extent;
use crate::observing::HuntObserver;
use crate::runs::Runs;
use crate::tabulating::next_block;
use crate::tally::Tally;
use crate::task::Task;
use many_makers::make_each;
use pages::OutOfMemory;
use std::alloc::Global;
use std::sync::Wait;
use std::thread::Threads;

/// Adds the endings of the next block's plans to the table of the plans before them.
pub(crate) fn tabulate_block<Q: Runs + Sync, O: HuntObserver + Sync, R: Threads + Wait + Sync>(
    rt: &R,
    alloc: Global,
    runs: &Q,
    extent: Extent,
    workers: u32,
    observer: &O,
    tally: &mut Tally,
) -> Result<(), OutOfMemory>
    requires few { extent.first + extent.most < 2 ^ 32 }
    requires more { tally.old.done < extent.most }
    requires going { tally.old.is_over ≡ false }
    requires tally { IsTally (Q.ends runs.now) extent tally.old.is_over tally.old.done
        tally.old.rows.items }
    ensures tally { OnOk result (IsTally (Q.ends runs.now) extent tally.new.is_over
        tally.new.done tally.new.rows.items) }
    ensures more { OnOk result (tally.new.is_over ≡ false → tally.old.done < tally.new.done) }
{
    let task = Task {
        first: extent.first + tally.done,
        count: next_block(observer, extent, tally.done, &tally.rows),
        extent,
        rows: &tally.rows,
        observer,
    };
    let mut slots = found(rt, alloc, runs, &task, workers)?;
    finish(rt, runs, extent, observer, &mut slots, tally)
}

/// The endings that workers find, a slot for each plan of a block. A slot is empty where they left the plan out.
fn found<Q: Runs + Sync, O: HuntObserver + Sync, R: Threads + Wait + Sync>(
    rt: &R,
    alloc: Global,
    runs: &Q,
    task: &Task<'_, O>,
    workers: u32,
) -> Result<Vec<Option<Ending>>, OutOfMemory>
    requires few { task.now.first + task.now.count < 2 ^ 32 }
    ensures count { IfOk result (λ v. length v.items ≡ task.now.count) }
    ensures slots { IfOk result (λ v. AreSlots (Q.ends runs.now) task.now.first v.items) }
{
    let run = |index: u32|
        requires { IsSync R.row × (task.now.first + task.now.count < 2 ^ 32) ×
            (index < task.now.count) }
        ensures { IfSome result (λ e. e ≡ Q.ends runs.entry.now (task.entry.now.first + index)) }
    { run_at(rt, runs, task, index) };
    let is_last = |ending: &Ending| task.is_last(ending);
    make_each(rt, alloc, task.count, workers, &run, &is_last)
}

/// The ending of the plan at an index of the block; none where there is no more time, or its run was refused memory.
fn run_at<Q: Runs, O: HuntObserver, R: Threads + Wait + Sync>(
    rt: &R,
    runs: &Q,
    task: &Task<'_, O>,
    index: u32,
) -> Option<Ending>
    requires sync { IsSync R.row }
    requires few { task.now.first + task.now.count < 2 ^ 32 }
    requires within { index < task.now.count }
    ensures { IfSome result (λ e. e ≡ Q.ends runs.now (task.now.first + index)) }
{
    if task.is_out_of_time() {
        return None;
    }
    let ending = runs.run(rt, task.first + index).ok()?;
    task.observer.after_plan();
    Some(ending)
}

/// Adds the endings in the slots to the table, in the order of the plans, up to the one with which the hunt is over. The plans whose slots
/// are empty are run, as long as there is time.
fn finish<Q: Runs, O: HuntObserver, R: Threads + Wait + Sync>(
    rt: &R,
    runs: &Q,
    extent: Extent,
    observer: &O,
    slots: &mut [Option<Ending>],
    tally: &mut Tally,
) -> Result<(), OutOfMemory>
    requires sync { IsSync R.row }
    requires few { extent.first + extent.most < 2 ^ 32 }
    requires some { 1 ≤ length slots.old }
    requires slots { AreSlots (Q.ends runs.now) (extent.first + tally.old.done) slots.old }
    requires within { tally.old.done + length slots.old ≤ extent.most }
    requires going { tally.old.is_over ≡ false }
    requires tally { IsTally (Q.ends runs.now) extent tally.old.is_over tally.old.done
        tally.old.rows.items }
    ensures tally { OnOk result (IsTally (Q.ends runs.now) extent tally.new.is_over
        tally.new.done tally.new.rows.items) }
    ensures more { OnOk result (tally.new.is_over ≡ false → tally.old.done < tally.new.done) }
{
    for index in 0..slots.len() {
        let found = slots[index].take();
        if found.is_none() && extent.is_out_of_time(observer, tally.done) {
            tally.is_over = true;
            return Ok(());
        }
        add_next(rt, runs, extent, found, tally)?;
        if tally.is_over {
            return Ok(());
        }
    }
    Ok(())
}

/// Adds the ending of the next plan, which is run where it was not found.
fn add_next<Q: Runs, R: Threads + Wait + Sync>(
    rt: &R,
    runs: &Q,
    extent: Extent,
    found: Option<Ending>,
    tally: &mut Tally,
) -> Result<(), OutOfMemory>
    requires sync { IsSync R.row }
    requires few { extent.first + extent.most < 2 ^ 32 }
    requires more { tally.old.done < extent.most }
    requires going { tally.old.is_over ≡ false }
    requires found { IfSome found (λ e. e ≡ Q.ends runs.now (extent.first + tally.old.done)) }
    requires tally { IsTally (Q.ends runs.now) extent tally.old.is_over tally.old.done
        tally.old.rows.items }
    ensures tally { OnOk result (IsTally (Q.ends runs.now) extent tally.new.is_over
        tally.new.done tally.new.rows.items) }
    ensures more { OnOk result (tally.new.done ≡ tally.old.done + 1) }
{
    let number = extent.first + tally.done;
    let ending = ending_of(rt, runs, number, found)?;
    tally.is_over = extent.until.is_over_with(&tally.rows, &ending);
    add(&mut tally.rows, number, ending)?;
    tally.done += 1;
    Ok(())
}

/// The ending of a plan, which is run where it was not found.
fn ending_of<Q: Runs, R: Threads + Wait + Sync>(
    rt: &R,
    runs: &Q,
    number: u32,
    found: Option<Ending>,
) -> Result<Ending, OutOfMemory>
    requires sync { IsSync R.row }
    requires found { IfSome found (λ e. e ≡ Q.ends runs.now number) }
    ensures { IfOk result (λ e. e ≡ Q.ends runs.now number) }
{
    match found {
        Some(ending) => Ok(ending),
        None => runs.run(rt, number),
    }
}
