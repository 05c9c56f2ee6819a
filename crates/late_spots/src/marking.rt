//! Which stores of a list have to stay in it for what goes on late from a place. Nothing is said of that: `goes_on` judges.

use crate::opening::{Opened, bytes_behind, opens};
use crate::operating::shared_access;
use crate::owing::loses_debts;
use crate::passing::{does_none, is_done, is_passed, loads_from};
use early_reads::{EarlyBytes, EarlyPoint};
use hart_states::{ListedStore, RunState};
use round_schedule::Access;
use run_places::{Against, Place};

/// Marks the stores of the list that have to stay for what goes on late from a place: those that its hart may still do, those that its loads may not have
/// behind them, and those that break its reservation.
pub fn mark_late(points: &[EarlyPoint], against: &Against<'_>, place: &Place, stays: &mut [bool]) {
    let Some(access) = shared_access(against, &place.state) else {
        return;
    };
    if loses_debts(against, place, &access) {
        return;
    }
    mark_undone(against, &place.state, stays);
    mark_unpassed(points, against, &place.state, &access, stays);
    mark_read(against, &place.state, &access, stays);
    mark_breakers(against, place, stays);
}

/// Marks those to the bytes of a load that comes, unless it has them behind it: from the new place it may still stand early, and would read there what
/// came later.
fn mark_read(against: &Against<'_>, state: &RunState, access: &Access, stays: &mut [bool]) {
    if access.stores() {
        return;
    }
    for index in loads_from(state)..against.list.len() {
        if meets(&against.list[index], access) {
            mark(stays, index);
        }
    }
}

/// Whether a store is to a byte of an access.
fn meets(store: &ListedStore, access: &Access) -> bool {
    let start = access.address();
    if start <= store.address {
        store.address - start < access.byte_count()
    } else {
        start - store.address < store.width.bytes()
    }
}

/// Marks the stores of other harts that break a place's reservation: an SC that fails behind them may succeed where they are laid into memory.
pub fn mark_breakers(against: &Against<'_>, place: &Place, stays: &mut [bool]) {
    for index in 0..against.list.len() {
        if breaks(against.hart, index, &against.list[index], &place.state) {
            mark(stays, index);
        }
    }
}

fn mark(stays: &mut [bool], index: usize) {
    if index < stays.len() {
        stays[index] = true;
    }
}

/// Whether a store at a place of the list is another hart's, to a reserved byte, and behind the one that the LR read.
fn breaks(hart: u8, index: usize, store: &ListedStore, state: &RunState) -> bool {
    let Some(span) = state.held else {
        return false;
    };
    if store.hart == hart {
        return false;
    }
    for offset in 0..8 {
        if offset < span.width.bytes()
            && store.writes(span.address.wrapping_add(offset))
            && state.sources[offset as usize] <= index
        {
            return true;
        }
    }
    false
}

/// Marks the stores that a hart may still do.
fn mark_undone(against: &Against<'_>, state: &RunState, stays: &mut [bool]) {
    for index in 0..against.list.len() {
        if !is_done(against.hart, index, &against.list[index], state) {
            mark(stays, index);
        }
    }
}

/// Marks those that loads behind a late access may not have behind them.
fn mark_unpassed(
    points: &[EarlyPoint],
    against: &Against<'_>,
    state: &RunState,
    access: &Access,
    stays: &mut [bool],
) {
    let owes = !does_none(against.hart, against.list, state);
    match opens(points, against.list, state, access, owes) {
        Opened::Nothing => (),
        Opened::ByMap => match bytes_behind(points, state, access, owes) {
            Some(set) => mark_of(set, against.list, state, stays),
            None => mark_from(loads_from(state), against.list, stays),
        },
        Opened::All => mark_from(loads_from(state), against.list, stays),
    }
}

/// Marks those to the bytes of a set.
fn mark_of(set: &EarlyBytes, list: &[ListedStore], state: &RunState, stays: &mut [bool]) {
    for index in 0..list.len() {
        if !is_passed(set, index, &list[index], state) {
            mark(stays, index);
        }
    }
}

/// Marks those from a place on.
fn mark_from(place: usize, list: &[ListedStore], stays: &mut [bool]) {
    for index in place..list.len() {
        mark(stays, index);
    }
}
