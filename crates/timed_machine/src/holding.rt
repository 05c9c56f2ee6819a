//! Stores that harts hold, and how they get to memory.
use crate::common::Common;
use crate::timed_hart::Timing;
use access_times::{HeldStore, MOST_HELD, Maker, Operation};
use pages::OutOfMemory;

/// How many steps of the others a hart waits at most until a store that it holds is in memory.
const LONGEST_WAIT: u64 = 10_000;

/// Which of the stores that a hart holds go to memory.
#[derive(Clone, Copy)]
pub(crate) enum Ripe {
    /// Those that have to be there before an operation.
    Before(Operation),
    /// Those that were held until the other harts had done so many operations.
    After(u64),
    /// All of them.
    All,
}

/// Whether a held store goes to memory now.
fn is_ripe(held: &HeldStore, ripe: &Ripe) -> bool {
    match ripe {
        Ripe::Before(operation) => held.goes_before(operation),
        Ripe::After(others) => held.until <= *others,
        Ripe::All => true,
    }
}

/// Whether a store that a hart holds goes to memory now.
fn has_ripe(timing: &Timing, ripe: &Ripe) -> bool {
    for slot in 0..MOST_HELD {
        if let Some(held) = timing.held[slot] {
            if is_ripe(&held, ripe) {
                return true;
            }
        }
    }
    false
}

/// Whether a hart may do its next operation: what it holds that has to be in memory before is there. If not, it waits, for a while
/// and unless it is forced.
#[inline]
pub(crate) fn may_go_on(
    timing: &mut Timing,
    common: &mut Common,
    operation: &Operation,
    forced: bool,
) -> Result<bool, OutOfMemory> {
    if common.held == 0 {
        timing.waits_since = None;
        return Ok(true);
    }
    may_pass_held(timing, common, &Ripe::Before(*operation), forced)
}

/// The same where harts hold stores.
#[inline(never)]
fn may_pass_held(
    timing: &mut Timing,
    common: &mut Common,
    ripe: &Ripe,
    forced: bool,
) -> Result<bool, OutOfMemory> {
    if !has_ripe(timing, ripe) {
        timing.waits_since = None;
        return Ok(true);
    }
    if !forced && waits_on(&mut timing.waits_since, common.steps) {
        return Ok(false);
    }
    timing.waits_since = None;
    put_ripe(timing, common, ripe)?;
    Ok(true)
}

/// Whether a hart waits on after so many steps of all harts.
fn waits_on(since: &mut Option<u64>, steps: u64) -> bool {
    match *since {
        Some(begun) => steps.saturating_sub(begun) < LONGEST_WAIT,
        None => {
            *since = Some(steps);
            true
        }
    }
}

/// Puts those of the stores that a hart holds to memory whose time has come.
pub(crate) fn put_ripe(
    timing: &mut Timing,
    common: &mut Common,
    ripe: &Ripe,
) -> Result<(), OutOfMemory> {
    for slot in 0..MOST_HELD {
        if let Some(held) = timing.held[slot] {
            if is_ripe(&held, ripe) {
                timing.held[slot] = None;
                put(timing, common, &held)?;
            }
        }
    }
    Ok(())
}

/// A store that a hart held goes to memory.
fn put(timing: &mut Timing, common: &mut Common, held: &HeldStore) -> Result<(), OutOfMemory> {
    let store = held.store;
    let before = common.memory.doubleword(store.address);
    common.memory.put(timing.number, store)?;
    common.held = common.held.saturating_sub(1);
    let maker = Maker {
        hart: timing.number,
        is_plain: true,
        depends: held.depends,
    };
    let time = common.history.add(held.bytes(), before, maker)?;
    timing.views.store(store.address, store.width, time)?;
    timing
        .views
        .order_behind(held.before_reads, held.before_writes, time);
    common.note_time(held.deed, time);
    Ok(())
}
