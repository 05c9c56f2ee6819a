ghost use Rattle.std.specs.Prelude.{◌≡◌, ◌<◌, ℕ, All, IfOk, IfSome, length};
ghost use Rattle.many_makers.specs.Slots.{AreMade, IsMade};

use crate::slots::{Made, filled_slots};
use pages::OutOfMemory;
use std::alloc::Global;
use std::sync::atomic::{AtomicU64, Ordering};
use std::thread::{self, Threads};

/// What workers make for each number below `count`: a slot for each.
///
/// Each worker claims one number after the other, until all are claimed, until there is nothing for a number, or until memory is refused. No
/// more are claimed once something was made that `is_last`: the numbers before it were claimed before it. A slot is empty where the
/// number was left out so. Which worker gets a number is left to the race.
///
/// # Errors
///
/// `OutOfMemory` alone.
pub fn make_each<
    T: Send + Drop,
    M: Fn(u32) -> Option<T> + Sync,
    L: Fn(&T) -> bool + Sync,
    R: Threads + Sync,
>(
    rt: &R,
    alloc: Global,
    count: u32,
    workers: u32,
    make: &M,
    is_last: &L,
) -> Result<Vec<Option<T>>, OutOfMemory>
    requires makes { (k : ℕ) → k < count → M.pre make.now k }
    requires looks { L.IsAlwaysCallable is_last.now }
    ensures count { IfOk result (λ v. length v.items ≡ count) }
    ensures made { IfOk result (λ v. AreMade (M.post make.now) v.items) }
{
    let next = AtomicU64::new(0);
    let work = |_worker: usize|
        requires makes { (k : ℕ) → k < count → M.pre make.now k }
        requires looks { L.IsAlwaysCallable is_last.now }
        ensures { All (IsMade (M.post make.entry.now)) result.items }
    { work(alloc, count, make, is_last, &next) };
    let lists = thread::map_indices(rt, alloc, workers as usize, &work)?;
    filled_slots(alloc, count, make, lists)
}

/// Claims numbers and makes something for each.
fn work<T: Drop, M: Fn(u32) -> Option<T>, L: Fn(&T) -> bool>(
    alloc: Global,
    count: u32,
    make: &M,
    is_last: &L,
    next: &AtomicU64,
) -> Vec<Made<T>>
    requires makes { (k : ℕ) → k < count → M.pre make.now k }
    requires looks { L.IsAlwaysCallable is_last.now }
    ensures { All (IsMade (M.post make.now)) result.items }
{
    let mut all = Vec::new(alloc);
    for _ in 0..count {
        let Some(index) = claim(count, next) else {
            break;
        };
        let Some(value) = make(index) else {
            break;
        };
        if is_last(&value) {
            next.store(u64::from(count), Ordering::SeqCst);
        }
        if all.push(Made { index, value }).is_err() {
            break;
        }
    }
    all
}

/// Claims the next number, if there is one.
fn claim(count: u32, next: &AtomicU64) -> Option<u32>
    ensures { IfSome result (λ index. index < count) }
{
    let index = next.fetch_add(1, Ordering::SeqCst);
    if index < u64::from(count) {
        Some(index as u32)
    } else {
        None
    }
}
