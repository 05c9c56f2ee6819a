//! A walk through all places.
ghost use Rattle.std.specs.Prelude.{◌≡◌, List, Contains, IfOk, IsTrue, OnOk};
ghost use Rattle.all_endings.specs.StoreLists.{Stored};
ghost use Rattle.all_endings.specs.Walking.{HartEnding};
ghost use Rattle.hart_ends.specs.Told.{ends_told};
ghost use Rattle.hart_states.specs.Opening.{opening_of};
ghost use Rattle.hart_states.specs.States.{listed, stored_of};
ghost use Rattle.own_moves.specs.Owned.{owns_of};
ghost use Rattle.private_bytes.specs.PrivateWalks.{IsCoveredApart, Spot};
ghost use Rattle.list_suffixes.specs.Serving.{Node};
ghost use Rattle.list_suffixes.specs.SettledWalks.{AreAhead};
ghost use Rattle.run_places.specs.Found.{end_found, offer_told};
ghost use Rattle.run_places.specs.Spots.{Grows, spots_of};
ghost use Rattle.run_places.specs.Walks.{IsWalkFrom, IsWalkOn};

use crate::covering::Places;
use crate::following::{Against, Found, Omission, Outcome, follow};
use crate::place::Place;
use hart_ends::{HartEnd, has_end};
use hart_states::ListedStore;
use pages::OutOfMemory;
use std::alloc::Global;

/// What a hart's runs against a list came to.
#[derive(Drop)]
pub struct HartWalk {
    /// The stores of the hart that may come next.
    pub offered: Vec<ListedStore>,
    /// How it ends, where it did all its stores of the list.
    pub ends: Vec<HartEnd>,
    /// How many places there are.
    pub places: usize,
}

/// What is said of a hart's runs.
#[derive(Drop)]
pub enum Walk {
    /// All places were followed.
    Whole(HartWalk),
    /// Nothing, for this reason.
    Unknown(Omission),
}

/// Walks through a hart's runs against a list, from some places on, of at most so many instructions, by at most so many places.
///
/// # Errors
///
/// `OutOfMemory` alone.
pub fn walk_from(
    alloc: Global,
    against: &Against<'_>,
    begin: &[Place],
    most: usize,
) -> Result<Walk, OutOfMemory>
    ensures { IfOk result (λ w. (n : Node) → n.stores ≡ listed against.now.list.now →
        n.memory ≡ opening_of against.now.memory →
        n.spots against.now.hart ≡ spots_of begin.now →
        IsWalkFrom (owns_of against.now.owned.now) against.now.steps
        against.now.memory.pages.now.memory against.now.harts against.now.hart n w) }
{
    let mut places = begun(alloc, begin)?;
    walk_on(alloc, against, &mut places, most)
}

/// The places from which a walk goes on, but for those for which others stand.
///
/// # Errors
///
/// `OutOfMemory` alone.
pub fn begun(alloc: Global, begin: &[Place]) -> Result<Places, OutOfMemory>
    ensures { IfOk result (λ places. (p : Spot) → Contains (spots_of begin.now) p →
        AreAhead (spots_of places.all.items) p) }
{
    let mut places = Places::new(alloc);
    for place in begin {
        places.add(place.copy(alloc)?)?;
    }
    Ok(places)
}

/// Follows places, and those that they lead to.
fn walk_on(
    alloc: Global,
    against: &Against<'_>,
    places: &mut Places,
    most: usize,
) -> Result<Walk, OutOfMemory>
    ensures { IfOk result (λ w.
        IsWalkOn (owns_of against.now.owned.now) against.now.steps
        against.now.memory.pages.now.memory against.now.harts against.now.hart
        (listed against.now.list.now) (opening_of against.now.memory)
        (spots_of places.old.all.items) w) }
{
    let mut walk = HartWalk {
        offered: Vec::new(alloc),
        ends: Vec::new(alloc),
        places: 0,
    };
    for done in 0..most {
        if done >= places.all.len() {
            walk.places = done;
            return Ok(Walk::Whole(walk));
        }
        let outcome = follow(alloc, against, &places.all[done])?;
        match outcome {
            Outcome::Unknown(why) => return Ok(Walk::Unknown(why)),
            Outcome::Whole(found) => take_in(&mut walk, places, found)?,
        }
    }
    Ok(Walk::Unknown(Omission::Places))
}

/// Keeps what follows a place.
fn take_in(walk: &mut HartWalk, places: &mut Places, found: Found) -> Result<(), OutOfMemory>
    ensures grows { OnOk result (Grows places.old.all.items places.new.all.items) }
    ensures covered { OnOk result ((m : List Stored) (p : Spot) →
        IsCoveredApart m (spots_of found.reached.items) p →
        IsCoveredApart m (spots_of places.new.all.items) p) }
    ensures offered_stay { OnOk result ((s : Stored) → Contains (listed walk.old.offered.items) s →
        Contains (listed walk.new.offered.items) s) }
    ensures offered { OnOk result ((s : Stored) → Contains (offer_told found.offered) s →
        Contains (listed walk.new.offered.items) s) }
    ensures ends_stay { OnOk result ((e : HartEnding) →
        Contains (ends_told walk.old.ends.items) e → Contains (ends_told walk.new.ends.items) e) }
    ensures ends { OnOk result ((e : HartEnding) → Contains (end_found found.end) e →
        Contains (ends_told walk.new.ends.items) e) }
{
    let Found {
        reached,
        offered,
        end,
    } = found;
    add_all(places, reached)?;
    keep_offer(&mut walk.offered, offered)?;
    keep_end(&mut walk.ends, end)
}

/// Keeps a store that may come next, if it is new.
fn keep_offer(
    stores: &mut Vec<ListedStore>,
    offered: Option<ListedStore>,
) -> Result<(), OutOfMemory>
    ensures stay { OnOk result ((s : Stored) → Contains (listed stores.old.items) s →
        Contains (listed stores.new.items) s) }
    ensures there { OnOk result ((s : Stored) → Contains (offer_told offered) s →
        Contains (listed stores.new.items) s) }
{
    let store = match offered {
        Some(store) => store,
        None => return Ok(()),
    };
    if has_store(stores, &store) {
        return Ok(());
    }
    stores.push(store)?;
    Ok(())
}

/// Keeps an end, if it is new.
fn keep_end(ends: &mut Vec<HartEnd>, found: Option<HartEnd>) -> Result<(), OutOfMemory>
    ensures stay { OnOk result ((e : HartEnding) → Contains (ends_told ends.old.items) e →
        Contains (ends_told ends.new.items) e) }
    ensures there { OnOk result ((e : HartEnding) → Contains (end_found found) e →
        Contains (ends_told ends.new.items) e) }
{
    let end = match found {
        Some(end) => end,
        None => return Ok(()),
    };
    if has_end(ends, &end) {
        return Ok(());
    }
    ends.push(end)?;
    Ok(())
}

/// Adds places, but for those for which some stand.
///
/// # Errors
///
/// `OutOfMemory` alone.
pub fn add_all(places: &mut Places, reached: Vec<Place>) -> Result<(), OutOfMemory>
    ensures grows { OnOk result (Grows places.old.all.items places.new.all.items) }
    ensures ahead { OnOk result ((p : Spot) → AreAhead (spots_of reached.items) p →
        AreAhead (spots_of places.new.all.items) p) }
    ensures covered { OnOk result ((m : List Stored) (p : Spot) →
        IsCoveredApart m (spots_of reached.items) p →
        IsCoveredApart m (spots_of places.new.all.items) p) }
{
    for place in reached {
        places.add(place)?;
    }
    Ok(())
}

/// Whether a store is among some.
fn has_store(stores: &[ListedStore], store: &ListedStore) -> bool
    ensures { IsTrue result → Contains (listed stores.now) (stored_of store.now) }
{
    for other in stores {
        if *other == *store {
            return true;
        }
    }
    false
}
