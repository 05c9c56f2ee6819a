//! The new places of a settled walk, where some stores of its list are laid into memory.
ghost use Rattle.std.specs.Prelude.{◌≡◌, ◌≢◌, ◌≤◌, false, length, IfOk, IfSome, IsTrue, OnOk};
ghost use Rattle.early_reads.specs.Checking.{map_of};
ghost use Rattle.early_reads.specs.EarlyMaps.{IsRight};
ghost use Rattle.hart_states.specs.Opening.{opening_of};
ghost use Rattle.hart_states.specs.States.{listed};
ghost use Rattle.late_spots.specs.declared.going_on.Onward.TheVariants.{Behind, Open};
ghost use Rattle.list_suffixes.specs.Serving.{Node};
ghost use Rattle.list_suffixes.specs.SettledWalks.{AreAhead, IsSettledWalk};
ghost use Rattle.list_suffixes.specs.Staying.{MayBeLaid, spot_kept};
ghost use Rattle.own_moves.specs.Owned.{owns_of};
ghost use Rattle.run_places.specs.Spots.{Grows, spot_of, spots_of};
ghost use Rattle.settled_walks.specs.KnownWalks.{IsKnownWalk};
ghost use Rattle.settled_walks.specs.SettledPlaces.{IsSettledAt};

use crate::ending::may_end;
use crate::keeping::place_kept;
use all_endings::stops_are_known;
use early_reads::EarlyPoint;
use late_spots::{Onward, goes_on, settled_spots_are_late};
use pages::OutOfMemory;
use run_places::{Against, Place, Places};
use std::alloc::Global;

/// The places from which a hart's runs go on over what the stores leave that are laid into memory, by a map of its code that is right, and from the
/// places that they come to by what is known alone. None where it isn't known that the runs from a place have these stores behind them.
///
/// # Errors
///
/// `OutOfMemory` alone.
pub fn settle(
    alloc: Global,
    against: &Against<'_>,
    points: &[EarlyPoint],
    stays: &[bool],
    places: &[Place],
) -> Result<Option<Vec<Place>>, OutOfMemory>
    requires right { IsRight (map_of points.now) (owns_of against.now.owned.now)
        against.now.memory.pages.now.memory against.now.hart }
    ensures { IfOk result (λ r. IfSome r (λ new. (n : Node) →
        n.stores ≡ listed against.now.list.now → n.memory ≡ opening_of against.now.memory →
        IsKnownWalk (owns_of against.now.owned.now) against.now.steps
        against.now.memory.pages.now.memory against.now.harts against.now.hart n
        (spots_of places.now) → length stays.now ≤ length n.stores →
        MayBeLaid stays.now n.stores → IsSettledWalk (owns_of against.now.owned.now)
        against.now.steps against.now.memory.pages.now.memory against.now.harts
        against.now.hart stays.now n (spots_of places.now) (spots_of new.items))) }
{
    stops_are_known();
    settled_spots_are_late();
    let mut new = Places::new(alloc);
    for place in places {
        let settled = settle_at(alloc, &mut new, against, points, stays, place)?;
        if !settled {
            return Ok(None);
        }
    }
    Ok(Some(new.all))
}

/// Adds the place from which runs go on, if they go on late from a place, or may end there. Says whether it is known that they have the stores
/// behind them that are laid into memory.
fn settle_at(
    alloc: Global,
    new: &mut Places,
    against: &Against<'_>,
    points: &[EarlyPoint],
    stays: &[bool],
    place: &Place,
) -> Result<bool, OutOfMemory>
    ensures grows { OnOk result (Grows new.old.all.items new.new.all.items) }
    ensures settled { IfOk result (λ b. IsTrue b → IsSettledAt (map_of points.now)
        (owns_of against.now.owned.now) against.now.memory.pages.now.memory against.now.hart
        stays.now (listed against.now.list.now) (spots_of new.new.all.items)
        (spot_of place.now)) }
{
    let onward = goes_on(points, against, stays, place);
    if is_open(onward) {
        return Ok(false);
    }
    let ends = may_end(alloc, against.memory.pages, &place.state)?;
    add_kept(alloc, new, against, stays, place, ends, is_behind(onward))?;
    Ok(true)
}

/// Whether nothing is told of the runs that go on late.
fn is_open(onward: Onward) -> bool
    ensures { result ≡ false → onward ≢ Open }
{
    matches!(onward, Onward::Open)
}

/// Whether they have the stores behind them that are laid into memory.
fn is_behind(onward: Onward) -> bool
    ensures { result ≡ false → onward ≢ Behind }
{
    matches!(onward, Onward::Behind)
}

/// Adds a place with its times counted by the stores that stay, if a hart may end there, or its runs go on late and have the others behind them.
fn add_kept(
    alloc: Global,
    new: &mut Places,
    against: &Against<'_>,
    stays: &[bool],
    place: &Place,
    ends: bool,
    behind: bool,
) -> Result<(), OutOfMemory>
    ensures grows { OnOk result (Grows new.old.all.items new.new.all.items) }
    ensures ends { OnOk result (IsTrue ends → AreAhead (spots_of new.new.all.items)
        (spot_kept stays.now (listed against.now.list.now) (spot_of place.now))) }
    ensures behind { OnOk result (IsTrue behind → AreAhead (spots_of new.new.all.items)
        (spot_kept stays.now (listed against.now.list.now) (spot_of place.now))) }
{
    if !ends && !behind {
        return Ok(());
    }
    let kept = place_kept(alloc, place, against.list, stays)?;
    new.add(kept)?;
    Ok(())
}
