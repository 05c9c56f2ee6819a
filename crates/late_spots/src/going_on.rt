//! How the runs of a hart go on late from a place: by an operation that stands behind the list.
ghost use Rattle.std.specs.Prelude.{List};
ghost use Rattle.hart_states.specs.States.{listed};
ghost use Rattle.own_moves.specs.Owned.{owns_of};
ghost use Rattle.private_bytes.specs.PrivateWalks.{Spot};
ghost use Rattle.run_places.specs.Spots.{spot_of};
ghost use Rattle.early_reads.specs.Checking.{map_of};
ghost use Rattle.late_spots.specs.Onward.{IsOnward};

use crate::opening::goes_behind;
use crate::operating::shared_access;
use crate::owing::loses_debts;
use early_reads::EarlyPoint;
use run_places::{Against, Place};

/// What becomes of the runs that go on from a place by an operation on nobody's own bytes that stands behind the list.
#[derive(Clone, Copy, PartialEq, Eq)]
pub enum Onward {
    /// There are none: the next instruction does no such operation.
    Known,
    /// They are lost: the hart owes a store of the list, and can't do it behind that operation.
    Lost,
    /// They have the stores behind them that are laid into memory.
    Behind,
    /// Nothing of these is told.
    Open,
}

/// What becomes of a hart's runs that go on late from a place, by a map of its code and which stores stay in the list.
pub fn goes_on(
    points: &[EarlyPoint],
    against: &Against<'_>,
    stays: &[bool],
    place: &Place,
) -> Onward
    ensures { (new : List Spot) → IsOnward result (map_of points.now)
        (owns_of against.now.owned.now) against.now.memory.pages.now.memory against.now.hart
        stays.now (listed against.now.list.now) new (spot_of place.now) }
{
    let Some(access) = shared_access(against, &place.state) else {
        return Onward::Known;
    };
    if loses_debts(against, place, &access) {
        return Onward::Lost;
    }
    if goes_behind(points, against, stays, &place.state, &access) {
        return Onward::Behind;
    }
    Onward::Open
}
