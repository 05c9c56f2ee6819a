//! Which stores of a list have to stay in it for the runs of a hart. Nothing is said of that: `settle` judges.

use crate::ending::may_end;
use early_reads::EarlyPoint;
use late_spots::{mark_breakers, mark_late};
use pages::OutOfMemory;
use run_places::{Against, Place, is_paid};
use std::alloc::Global;

/// Marks the stores of a list that have to stay in it for what goes on from some places. Where a hart may end, those stay that it owes: with its
/// debts the place is no end of an execution.
///
/// # Errors
///
/// `OutOfMemory` alone.
pub fn mark_staying(
    alloc: Global,
    against: &Against<'_>,
    points: &[EarlyPoint],
    places: &[Place],
    stays: &mut [bool],
) -> Result<(), OutOfMemory> {
    for place in places {
        mark_late(points, against, place, stays);
        if may_end(alloc, against.memory.pages, &place.state)? {
            mark_breakers(against, place, stays);
            mark_unpaid(against, place, stays);
        }
    }
    Ok(())
}

/// Marks the stores that a hart owes.
fn mark_unpaid(against: &Against<'_>, place: &Place, stays: &mut [bool]) {
    for store in 0..stays.len() {
        if store < against.list.len()
            && against.list[store].hart == against.hart
            && !is_paid(&place.paid, store)
        {
            stays[store] = true;
        }
    }
}
