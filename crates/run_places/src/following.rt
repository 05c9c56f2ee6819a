//! What follows one place.
ghost use Rattle.std.specs.Prelude.{◌≡◌, ℕ, List, map, IfOk, IfSome, IsSomeAnd, IsTrue, None, Some, false};
ghost use Rattle.all_endings.specs.Offering.{Offers};
ghost use Rattle.all_endings.specs.StoreLists.{Stored};
ghost use Rattle.all_endings.specs.Walking.{IsPaid};
ghost use Rattle.hart_states.specs.Opening.{opening_of};
ghost use Rattle.hart_states.specs.States.{listed, state_of, stored_of};
ghost use Rattle.own_moves.specs.Owned.{owns_of};
ghost use Rattle.private_bytes.specs.Owners.{KeepsToItself, is_own};
ghost use Rattle.private_bytes.specs.PrivateWalks.{spot_with};
ghost use Rattle.hart_moves.specs.Offers.{IsOffer};
ghost use Rattle.run_places.specs.Following.{CoverLater, CoverMoves, TellEnds};
ghost use Rattle.run_places.specs.Found.{IsOutcomeOf, end_found};
ghost use Rattle.run_places.specs.Spots.{place_of, spot_of, spots_of};

use crate::constants::{is_open_call, stays_constant};
use crate::owing::owes_nothing;
use crate::place::Place;
use crate::reaching::places_behind;
use all_endings::stops_are_known;
use hart_ends::HartEnd;
use hart_moves::{Reached, is_settled, knows_registers, offers, stop_of};
use hart_states::{ListedStore, OpeningMemory};
use own_moves::{OwnDoubleword, is_own, moves, strays_to};
use pages::OutOfMemory;
use std::alloc::Global;

/// What a hart's runs are walked against.
#[derive(Clone, Copy)]
pub struct Against<'a> {
    /// Memory where the list begins.
    pub memory: OpeningMemory<'a>,
    /// The hart's number.
    pub hart: u8,
    /// How many harts there are.
    pub harts: u8,
    /// The bytes that one hart alone touches.
    pub owned: &'a [OwnDoubleword],
    /// The stores of all harts to other bytes so far.
    pub list: &'a [ListedStore],
    /// So many instructions of the hart are followed.
    pub steps: u64,
}

/// Why nothing is said of a hart's runs.
#[derive(Clone, Copy, PartialEq, Eq)]
pub enum Omission {
    /// There are more places than were to be followed.
    Places,
    /// The number of a call isn't a constant of the code.
    OpenCall,
    /// A call may have any answer: it takes in a byte, or asks for the round.
    AnyAnswer,
    /// The hart touches an aligned doubleword, whose address is 8 times this number, that is another hart's own; or its own one by more
    /// than a plain load or store.
    Strays(u64),
}

/// What follows a place.
#[derive(Drop)]
pub(crate) struct Found {
    /// Places that its moves lead to, and the place with the store that it was offered.
    pub(crate) reached: Vec<Place>,
    /// The store that may come next, if the hart owes nothing.
    pub(crate) offered: Option<ListedStore>,
    /// How the hart ends there.
    pub(crate) end: Option<HartEnd>,
}

/// What is said of a place.
#[derive(Drop)]
pub(crate) enum Outcome {
    /// All that follows it.
    Whole(Found),
    /// Nothing.
    Unknown(Omission),
}

/// All that follows a place.
///
/// # Errors
///
/// `OutOfMemory` alone.
pub(crate) fn follow(
    alloc: Global,
    against: &Against<'_>,
    place: &Place,
) -> Result<Outcome, OutOfMemory>
    ensures { IfOk result (λ f.
        IsOutcomeOf (owns_of against.now.owned.now) against.now.steps
        against.now.memory.pages.now.memory against.now.harts against.now.hart
        (listed against.now.list.now) (opening_of against.now.memory) (spot_of place.now) f) }
{
    if is_open_call(against.memory.pages, place) {
        return Ok(Outcome::Unknown(Omission::OpenCall));
    }
    if let Some(doubleword) = strays(against, place) {
        return Ok(Outcome::Unknown(Omission::Strays(doubleword)));
    }
    let pays = owes_nothing(against.hart, against.list, place);
    let offer = new_offer(against, place);
    let behind = moved(alloc, against, place, unless(pays, offer))?;
    let reached = match behind {
        Some(places) => places,
        None => return Ok(Outcome::Unknown(Omission::AnyAnswer)),
    };
    let end = end_of(alloc, against, place, pays)?;
    Ok(Outcome::Whole(Found {
        reached,
        offered: next_if(pays, place.next, offer),
        end,
    }))
}

/// A doubleword that isn't the hart's to touch so, and that it touches next.
pub fn strays(against: &Against<'_>, place: &Place) -> Option<u64>
    ensures { result ≡ None → KeepsToItself (owns_of against.now.owned.now)
        against.now.memory.pages.now.memory against.now.harts against.now.hart
        (state_of place.now.state) }
{
    strays_to(
        against.memory.pages,
        against.hart,
        against.harts,
        against.owned,
        &place.state,
    )
}

/// The places behind the moves of a place, but for those that are lost; and those behind the moves that store LATER, with the store that was
/// chosen to come next. None where a call may have any answer.
fn moved(
    alloc: Global,
    against: &Against<'_>,
    place: &Place,
    chosen: Option<ListedStore>,
) -> Result<Option<Vec<Place>>, OutOfMemory>
    ensures moves { IfOk result (λ r. IfSome r (λ ps.
        CoverMoves (owns_of against.now.owned.now) against.now.steps
        against.now.memory.pages.now.memory against.now.hart (listed against.now.list.now)
        (opening_of against.now.memory) (spot_of place.now) (spots_of ps.items))) }
    ensures later { IfOk result (λ r. IfSome r (λ ps. (t : ListedStore) → chosen ≡ Some t →
        CoverLater (owns_of against.now.owned.now) against.now.steps
        against.now.memory.pages.now.memory against.now.hart (listed against.now.list.now)
        (opening_of against.now.memory) (spot_with (spot_of place.now) (stored_of t))
        (spots_of ps.items))) }
{
    if place.count >= against.steps {
        return Ok(Some(Vec::new(alloc)));
    }
    let next = moves(
        alloc,
        &against.memory,
        against.hart,
        against.list,
        against.owned,
        &place.state,
    )?;
    match next {
        Reached::AnyAnswer => Ok(None),
        Reached::Whole(successors) => {
            let constant = stays_constant(against.memory.pages, place);
            let behind = places_behind(alloc, against, place, successors, constant, chosen)?;
            Ok(Some(behind))
        }
    }
}

/// The store that a place is newly offered.
fn new_offer(against: &Against<'_>, place: &Place) -> Option<ListedStore>
    ensures { place.now.next ≡ None → (s : Stored) →
        is_own (owns_of against.now.owned.now) against.now.hart s.address ≡ false →
        Offers against.now.memory.pages.now.memory against.now.hart (listed against.now.list.now)
        (opening_of against.now.memory) (state_of place.now.state) s →
        IsOffer result s }
{
    match place.next {
        Some(_) => None,
        None => shared_offer(against, place),
    }
}

/// A store that is offered, unless the hart owes nothing: then the hart does it LATER, and is followed on.
fn unless(pays: bool, offer: Option<ListedStore>) -> Option<ListedStore>
    ensures { pays ≡ false → result ≡ offer }
{
    if pays { None } else { offer }
}

/// The store that may come next, if the hart owes nothing.
fn next_if(pays: bool, next: Option<ListedStore>, offer: Option<ListedStore>) -> Option<ListedStore>
    ensures offers { IsTrue pays → next ≡ None → result ≡ offer }
    ensures next { (t : ListedStore) → IsTrue pays → next ≡ Some t → result ≡ Some t }
{
    if !pays {
        return None;
    }
    match next {
        Some(store) => Some(store),
        None => offer,
    }
}

/// The store to nobody's own bytes that may come next by the next instruction of a place.
fn shared_offer(against: &Against<'_>, place: &Place) -> Option<ListedStore>
    ensures { (s : Stored) →
        is_own (owns_of against.now.owned.now) against.now.hart s.address ≡ false →
        Offers against.now.memory.pages.now.memory against.now.hart (listed against.now.list.now)
        (opening_of against.now.memory) (state_of place.now.state) s →
        IsOffer result s }
{
    let offer = offers(&against.memory, against.hart, against.list, &place.state);
    let store = match offer {
        Some(store) => store,
        None => return None,
    };
    if is_own(against.owned, against.hart, store.address) {
        return None;
    }
    Some(store)
}

/// How the hart ends at a place.
fn end_of(
    alloc: Global,
    against: &Against<'_>,
    place: &Place,
    pays: bool,
) -> Result<Option<HartEnd>, OutOfMemory>
    ensures { IfOk result (λ e.
        (IsPaid against.now.hart (listed against.now.list.now) (place_of place.now) → IsTrue pays) →
        TellEnds against.now.memory.pages.now.memory against.now.hart (listed against.now.list.now)
        (spot_of place.now) (end_found e)) }
{
    stops_are_known();
    if !pays || !knows_registers(&place.state) || !is_settled(against.list, &place.state) {
        return Ok(None);
    }
    let stop = match stop_of(alloc, against.memory.pages, &place.state)? {
        Some(stop) => stop,
        None => return Ok(None),
    };
    match known_bytes(alloc, &place.state.output)? {
        Some(output) => Ok(Some(HartEnd { stop, output })),
        None => Ok(None),
    }
}

/// The bytes, if all are known.
fn known_bytes(alloc: Global, output: &[Option<u8>]) -> Result<Option<Vec<u8>>, OutOfMemory>
    ensures { IfOk result (λ r. (bs : List ℕ) → output.now ≡ map (λ b. Some b) bs →
        IsSomeAnd r (λ v. v.items ≡ bs)) }
{
    let mut bytes = Vec::new(alloc);
    for byte in output {
        match *byte {
            Some(known) => bytes.push(known)?,
            None => return Ok(None),
        }
    }
    Ok(Some(bytes))
}
