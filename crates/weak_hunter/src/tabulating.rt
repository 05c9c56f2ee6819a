ghost use Rattle.std.specs.Prelude.{◌≡◌, ◌+◌, ◌<◌, ◌≤◌, ◌^◌, [], ◌∷◌, IfOk, OnOk, false, length};
ghost use Rattle.plan_hunt.specs.Adding.{row};
ghost use Rattle.weak_hunter.specs.WeakHunts.{IsSomeTable, IsSomeTally};

use crate::executing::{execute_block, executed};
use crate::guest::Guest;
use pages::OutOfMemory;
use plan_hunt::{Ending, Extent, HuntObserver, Row, Tally, Task, join, next_block};
use std::alloc::Global;
use std::thread::Threads;

/// The table of the endings of a hunt's executions, of as many as are made when the hunt is over.
///
/// # Errors
///
/// `OutOfMemory` alone.
pub(crate) fn tabulate<O: HuntObserver + Sync, R: Threads + Sync>(
    rt: &R,
    guest: &Guest<'_>,
    extent: Extent,
    workers: u32,
    observer: &O,
) -> Result<Tally, OutOfMemory>
    requires { extent.first + extent.most < 2 ^ 32 }
    ensures { IfOk result (λ t. IsSomeTable extent t.done t.rows.items) }
{
    let mut tally = Tally::new(guest.alloc);
    while tally.done < extent.most && !tally.is_over {
        tabulate_block(rt, guest, extent, workers, observer, &mut tally)?;
    }
    Ok(tally)
}

/// Adds the endings of the next block's executions to the table of those before them.
fn tabulate_block<O: HuntObserver + Sync, R: Threads + Sync>(
    rt: &R,
    guest: &Guest<'_>,
    extent: Extent,
    workers: u32,
    observer: &O,
    tally: &mut Tally,
) -> Result<(), OutOfMemory>
    requires few { extent.first + extent.most < 2 ^ 32 }
    requires more { tally.old.done < extent.most }
    requires going { tally.old.is_over ≡ false }
    requires tally { IsSomeTally extent tally.old.is_over tally.old.done tally.old.rows.items }
    ensures tally { OnOk result (IsSomeTally extent tally.new.is_over tally.new.done
        tally.new.rows.items) }
    ensures more { OnOk result (tally.new.is_over ≡ false → tally.old.done < tally.new.done) }
{
    let task = Task {
        first: extent.first + tally.done,
        count: next_block(observer, extent, tally.done, &tally.rows),
        extent,
        rows: &tally.rows,
        observer,
    };
    let mut slots = execute_block(rt, guest, &task, workers)?;
    add_endings(guest, extent, observer, &mut slots, tally)
}

/// Adds the endings in the slots to the table, up to the one with which the hunt is over. What the slots leave out is made here, as long as
/// there is time.
fn add_endings<O: HuntObserver>(
    guest: &Guest<'_>,
    extent: Extent,
    observer: &O,
    slots: &mut [Option<Ending>],
    tally: &mut Tally,
) -> Result<(), OutOfMemory>
    requires few { extent.first + extent.most < 2 ^ 32 }
    requires some { 1 ≤ length slots.old }
    requires within { tally.old.done + length slots.old ≤ extent.most }
    requires going { tally.old.is_over ≡ false }
    requires tally { IsSomeTally extent tally.old.is_over tally.old.done tally.old.rows.items }
    ensures tally { OnOk result (IsSomeTally extent tally.new.is_over tally.new.done
        tally.new.rows.items) }
    ensures more { OnOk result (tally.new.is_over ≡ false → tally.old.done < tally.new.done) }
{
    for index in 0..slots.len() {
        let made = slots[index].take();
        if made.is_none() && extent.is_out_of_time(observer, tally.done) {
            tally.is_over = true;
            return Ok(());
        }
        let ending = ending_in(guest, made, extent.first + tally.done, observer)?;
        add_ending(guest.alloc, extent, ending, tally)?;
        if tally.is_over {
            return Ok(());
        }
    }
    Ok(())
}

/// The ending in a slot, or where that is empty the one that the execution of its number is found to have.
fn ending_in<O: HuntObserver>(
    guest: &Guest<'_>,
    slot: Option<Ending>,
    number: u32,
    observer: &O,
) -> Result<Ending, OutOfMemory> {
    match slot {
        Some(ending) => Ok(ending),
        None => executed(guest, number, observer),
    }
}

/// Adds the next ending.
fn add_ending(
    alloc: Global,
    extent: Extent,
    ending: Ending,
    tally: &mut Tally,
) -> Result<(), OutOfMemory>
    requires few { extent.first + extent.most < 2 ^ 32 }
    requires more { tally.old.done < extent.most }
    requires going { tally.old.is_over ≡ false }
    requires tally { IsSomeTally extent tally.old.is_over tally.old.done tally.old.rows.items }
    ensures tally { OnOk result (IsSomeTally extent tally.new.is_over tally.new.done
        tally.new.rows.items) }
    ensures more { OnOk result (tally.new.done ≡ tally.old.done + 1) }
{
    tally.is_over = extent.until.is_over_with(&tally.rows, &ending);
    let one = row_of(alloc, ending, extent.first + tally.done)?;
    join(&mut tally.rows, one)?;
    tally.done += 1;
    Ok(())
}

/// The table of one ending.
fn row_of(alloc: Global, ending: Ending, number: u32) -> Result<Vec<Row>, OutOfMemory>
    ensures { IfOk result (λ v. v.items ≡ row ending number 1 ∷ []) }
{
    let mut rows = Vec::new(alloc);
    rows.push(Row {
        ending,
        first: number,
        plans: 1,
    })?;
    Ok(rows)
}
