//! A walk by what is known alone.
ghost use Rattle.std.specs.Prelude.{◌≡◌, length, IfOk, IfSome, IsTrue};
ghost use Rattle.hart_states.specs.Opening.{opening_of};
ghost use Rattle.hart_states.specs.States.{listed};
ghost use Rattle.list_suffixes.specs.Serving.{Node};
ghost use Rattle.own_moves.specs.Owned.{owns_of};
ghost use Rattle.run_places.specs.Spots.{Grows, spot_of, spots_of};
ghost use Rattle.settled_walks.specs.KnownWalks.{AreKnown, IsKnownAt, IsKnownWalk, IsTold};

use crate::known_moves::known_behind;
use crate::within::is_within;
use pages::OutOfMemory;
use run_places::{Against, Place, Places, add_all, begun, is_open_call, strays};
use std::alloc::Global;

/// The places that a hart's runs come to from some places by what is known alone. None where that isn't known of a place, or there are more places
/// than `most`.
///
/// # Errors
///
/// `OutOfMemory` alone.
pub fn known_places(
    alloc: Global,
    against: &Against<'_>,
    begin: &[Place],
    most: usize,
) -> Result<Option<Vec<Place>>, OutOfMemory>
    ensures { IfOk result (λ r. IfSome r (λ ps. (n : Node) →
        n.stores ≡ listed against.now.list.now → n.memory ≡ opening_of against.now.memory →
        n.spots against.now.hart ≡ spots_of begin.now →
        IsKnownWalk (owns_of against.now.owned.now) against.now.steps
        against.now.memory.pages.now.memory against.now.harts against.now.hart n
        (spots_of ps.items))) }
{
    let mut places = begun(alloc, begin)?;
    let whole = walk_known(alloc, against, &mut places, most)?;
    if !whole {
        return Ok(None);
    }
    Ok(Some(places.all))
}

/// Follows places, and those that they lead to. Says whether all were followed.
fn walk_known(
    alloc: Global,
    against: &Against<'_>,
    places: &mut Places,
    most: usize,
) -> Result<bool, OutOfMemory>
    ensures grows { IfOk result (λ b. IsTrue b →
        Grows places.old.all.items places.new.all.items) }
    ensures known { IfOk result (λ b. IsTrue b → AreKnown (owns_of against.now.owned.now)
        against.now.steps against.now.memory.pages.now.memory against.now.harts against.now.hart
        (listed against.now.list.now) (opening_of against.now.memory)
        (spots_of places.new.all.items)) }
{
    for done in 0..most {
        if done >= places.all.len() {
            return Ok(true);
        }
        match known_at(alloc, against, &places.all[done])? {
            Some(reached) => add_all(places, reached)?,
            None => return Ok(false),
        }
    }
    Ok(false)
}

/// The places behind the known moves of a place. None where something isn't known of it.
fn known_at(
    alloc: Global,
    against: &Against<'_>,
    place: &Place,
) -> Result<Option<Vec<Place>>, OutOfMemory>
    ensures { IfOk result (λ r. IfSome r (λ ps. IsKnownAt (owns_of against.now.owned.now)
        against.now.steps against.now.memory.pages.now.memory against.now.harts against.now.hart
        (listed against.now.list.now) (opening_of against.now.memory) (spots_of ps.items)
        (spot_of place.now))) }
{
    if !is_told(against, place) {
        return Ok(None);
    }
    has_all(&place.state.registers);
    match known_behind(alloc, against, place)? {
        Some(reached) => Ok(Some(reached)),
        None => Ok(None),
    }
}

/// Whether a walk by what is known can go on from a place: the number of a call that comes is a constant, what comes touches nothing that isn't the
/// hart's to touch so, and nothing stands behind the list.
fn is_told(against: &Against<'_>, place: &Place) -> bool
    ensures { IsTrue result → IsTold (owns_of against.now.owned.now)
        against.now.memory.pages.now.memory against.now.harts against.now.hart
        (length against.now.list.now) (spot_of place.now) }
{
    if is_open_call(against.memory.pages, place) {
        return false;
    }
    if let Some(_) = strays(against, place) {
        return false;
    }
    is_within(&place.state, against.list.len())
}

/// There are 32 registers.
fn has_all(registers: &[Option<u64>; 32])
    ensures { length registers.now ≡ 32 }
{}
