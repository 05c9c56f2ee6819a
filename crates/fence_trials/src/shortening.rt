//! A list of departures is made as short as it can be.

use crate::attempt::Attempt;
use crate::departing::Departing;
use crate::failing::Failing;
use crate::guest::copied;
use access_times::Early;
use departures::{Departure, Way};
use pages::OutOfMemory;
use plan_hunt::HuntObserver;
use std::alloc::Global;

/// How many executions are made at most to shorten a list.
const MOST_RUNS: u32 = 400;

/// An execution whose departures are left out as far as it fails without them.
#[derive(Drop)]
struct Shortening<'a, 'b, 'c, O> {
    attempt: &'a Attempt<'b, 'c, O>,
    failing: Failing,
    /// Whether an execution is followed by another plan too, past where it is cut off by its own.
    is_whole: bool,
    /// How many executions may be made yet.
    runs: u32,
}

/// Departures out of those of a failing execution with which it still seems to fail in the same way: none of them can be left out, unless
/// there were too many to try that.
///
/// # Errors
///
/// `OutOfMemory` alone.
pub(crate) fn shortened<O: HuntObserver>(
    attempt: &Attempt<'_, '_, O>,
    failing: Failing,
    departures: &[Departure],
) -> Result<Vec<Departure>, OutOfMemory> {
    let alloc = attempt.guest.alloc;
    let mut shortening = Shortening {
        attempt,
        failing,
        is_whole: false,
        runs: MOST_RUNS,
    };
    // Where it seems to hang and doesn't, what it fails by comes after that.
    shortening.is_whole = !shortening.still_fails(departures)?;
    let mut needed = copied(alloc, departures)?;
    shortening.leave_out_most(&mut needed)?;
    for index in 0..needed.len() {
        shortening.simplify(&mut needed, index)?;
    }
    Ok(needed)
}

impl<O: HuntObserver> Shortening<'_, '_, '_, O> {
    /// Whether the execution fails in the same way with these departures alone.
    fn still_fails(&mut self, departures: &[Departure]) -> Result<bool, OutOfMemory> {
        if self.runs == 0 {
            return Ok(false);
        }
        self.runs -= 1;
        let departing = Departing::Listed(departures);
        let failing = if self.is_whole {
            self.attempt.failing(departing)?
        } else {
            self.attempt.seeming(departing)?
        };
        match failing {
            Some(failing) => Ok(failing.is_like(self.failing)),
            None => Ok(false),
        }
    }

    /// Leaves out halves, quarters, and so on, and at last single ones.
    fn leave_out_most(&mut self, needed: &mut Vec<Departure>) -> Result<(), OutOfMemory> {
        let mut size = (needed.len() / 2).max(1);
        for _ in 0..MOST_RUNS {
            let before = needed.len();
            self.leave_out_chunks(needed, size)?;
            if needed.len() < before {
                size = size.min((needed.len() / 2).max(1));
            } else if size > 1 {
                size = size / 2;
            } else {
                break;
            }
        }
        Ok(())
    }

    /// Leaves out each so many in turn, where the execution still fails.
    fn leave_out_chunks(
        &mut self,
        needed: &mut Vec<Departure>,
        size: usize,
    ) -> Result<(), OutOfMemory> {
        let mut start = 0;
        for _ in 0..needed.len() {
            if start >= needed.len() {
                break;
            }
            if !self.leave_out(needed, start, size)? {
                start = start.saturating_add(size);
            }
        }
        Ok(())
    }

    /// Leaves out so many from an index on, if the execution still fails. Says whether it does.
    fn leave_out(
        &mut self,
        needed: &mut Vec<Departure>,
        start: usize,
        size: usize,
    ) -> Result<bool, OutOfMemory> {
        let fewer = without(self.attempt.guest.alloc, needed, start, size)?;
        let still_fails = self.still_fails(&fewer)?;
        if still_fails {
            *needed = fewer;
        }
        Ok(still_fails)
    }

    /// Has the departure at an index be the smallest one with which the execution still fails.
    fn simplify(&mut self, needed: &mut Vec<Departure>, index: usize) -> Result<(), OutOfMemory> {
        let Some(departure) = needed.get(index) else {
            return Ok(());
        };
        let way = departure.way;
        let mut changed = copied(self.attempt.guest.alloc, needed)?;
        if self.finds_smaller(&mut changed, index, way)? {
            *needed = changed;
        }
        Ok(())
    }

    /// Makes the departure at an index the smallest one with which the execution still fails. Says whether there is a smaller one.
    fn finds_smaller(
        &mut self,
        changed: &mut [Departure],
        index: usize,
        way: Way,
    ) -> Result<bool, OutOfMemory> {
        let mut extent = 1;
        for _ in 0..64 {
            let Some(smaller) = smaller(way, extent) else {
                break;
            };
            if let Some(departure) = changed.get_mut(index) {
                departure.way = smaller;
            }
            if self.still_fails(changed)? {
                return Ok(true);
            }
            extent = extent.saturating_mul(2);
        }
        Ok(false)
    }
}

/// A departure of this extent, where it is a smaller one.
fn smaller(way: Way, extent: u32) -> Option<Way> {
    match way {
        Way::Old(back) if extent < back => Some(Way::Old(extent)),
        Way::Late(operations) if u64::from(extent) < operations => {
            Some(Way::Late(u64::from(extent)))
        }
        Way::Early(early) if u64::from(extent) < early.wait => Some(Way::Early(Early {
            wait: u64::from(extent),
            ..early
        })),
        _ => None,
    }
}

/// The departures but for so many from an index on.
fn without(
    alloc: Global,
    departures: &[Departure],
    start: usize,
    size: usize,
) -> Result<Vec<Departure>, OutOfMemory> {
    let mut left = Vec::new(alloc);
    for index in 0..departures.len() {
        if index < start || index - start >= size {
            left.push(departures[index])?;
        }
    }
    Ok(left)
}
