ghost use Rattle.std.specs.Prelude.{◌≡◌, ◌+◌, ◌<◌, ◌≤◌, ◌^◌, IfOk};
ghost use Rattle.plan_hunt.specs.Extents.{IsTableOf};
ghost use Rattle.plan_hunt.specs.Tables.{TablesAreUnique};

use crate::block::tabulate_block;
use crate::extent::{Extent, Until};
use crate::observing::HuntObserver;
use crate::row::Row;
use crate::runs::Runs;
use crate::tally::Tally;
use pages::OutOfMemory;
use std::alloc::Global;
use std::sync::Wait;
use std::thread::Threads;

/// The most plans of a block. What is kept for each plan is kept for a block alone, so that memory grows with the endings
/// and not with the number of plans.
const MOST_OF_BLOCK: u32 = 4096;

/// No two tables of the same plans differ.
pub fn tables_are_unique()
    ensures { TablesAreUnique }
{}

/// The table of the endings of a hunt's plans, found by workers that run plans at the same time.
///
/// Which worker runs which plan makes no difference. A worker that is refused memory ends, and the calling thread does what
/// was left. Between two blocks of plans the workers wait for each other.
///
/// # Errors
///
/// `OutOfMemory` where the calling thread was refused memory too.
pub fn tabulate<Q: Runs + Sync, O: HuntObserver + Sync, R: Threads + Wait + Sync>(
    rt: &R,
    alloc: Global,
    runs: &Q,
    extent: Extent,
    workers: u32,
    observer: &O,
) -> Result<Tally, OutOfMemory>
    requires few { extent.first + extent.most < 2 ^ 32 }
    requires workers { 1 ≤ workers }
    ensures { IfOk result (λ t. IsTableOf (Q.ends runs.now) extent t.done t.rows.items) }
{
    let mut tally = Tally::new(alloc);
    while tally.done < extent.most && !tally.is_over {
        tabulate_block(rt, alloc, runs, extent, workers, observer, &mut tally)?;
    }
    Ok(tally)
}

/// How many plans are in the next block. A hunt for another ending than that of the first plan does this plan alone first.
pub fn next_block<O: HuntObserver>(observer: &O, extent: Extent, done: u32, rows: &[Row]) -> u32
    requires { done < extent.most }
    ensures some { 1 ≤ result }
    ensures few { done + result ≤ extent.most }
{
    if done == 0 && extent.until == Until::Differ {
        return 1;
    }
    block_size(observer.before_block(done, rows), extent.most - done)
}

/// How many plans are in a block for which so many are asked, where so many are left.
pub fn block_size(asked: u32, left: u32) -> u32
    requires { 1 ≤ left }
    ensures some { 1 ≤ result }
    ensures few { result ≤ left }
{
    asked.max(1).min(MOST_OF_BLOCK).min(left)
}
