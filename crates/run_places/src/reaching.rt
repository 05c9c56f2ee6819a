//! The places behind the moves of a place.
ghost use Rattle.std.specs.Prelude.{◌≡◌, ◌+◌, ◌<◌, ◌^◌, ◌-◌, ℕ, Bool, List, Contains, IfOk, IsTrue, OnOk, Some, length, true};
ghost use Rattle.all_endings.specs.RunStates.{Move};
ghost use Rattle.all_endings.specs.StoreLists.{Stored};
ghost use Rattle.hart_states.specs.States.{listed, state_of, stored_of};
ghost use Rattle.own_moves.specs.Moves.{FollowsApart};
ghost use Rattle.private_bytes.specs.PrivateWalks.{IsCoveredApart, LeadsOn, constant_after, spot_with};
ghost use Rattle.run_places.specs.Spots.{Grows, spot_of, spots_of};

use crate::following::Against;
use crate::owing::is_lost;
use crate::place::{Place, place_behind, place_with};
use hart_states::{ListedStore, Successor};
use pages::OutOfMemory;
use std::alloc::Global;

/// The places behind some moves of a place, but for those that are lost, and whether the number in x17 is a constant there. Where a store was
/// chosen to come next, also those with it behind the moves that store LATER.
pub(crate) fn places_behind(
    alloc: Global,
    against: &Against<'_>,
    place: &Place,
    successors: Vec<Successor>,
    constant: bool,
    chosen: Option<ListedStore>,
) -> Result<Vec<Place>, OutOfMemory>
    requires { place.now.count < 2 ^ 64 - 1 }
    ensures moves { IfOk result (λ ps. (owns : ℕ → ℕ → Bool) (v : Move) (s : Successor) →
        Contains successors.items s →
        FollowsApart owns against.now.hart (listed against.now.list.now)
        (state_of place.now.state) v s →
        (IsTrue constant → constant_after place.now.constant v ≡ true) →
        LeadsOn owns against.now.hart (listed against.now.list.now) (spots_of ps.items)
        (spot_of place.now) v) }
    ensures later { IfOk result (λ ps. (owns : ℕ → ℕ → Bool) (v : Move) (s : Successor)
        (t : ListedStore) → Contains successors.items s →
        FollowsApart owns against.now.hart (listed against.now.list.now)
        (state_of place.now.state) v s →
        (IsTrue constant → constant_after place.now.constant v ≡ true) → chosen ≡ Some t →
        s.done ≡ Some (length against.now.list.now + 1) →
        LeadsOn owns against.now.hart (listed against.now.list.now) (spots_of ps.items)
        (spot_with (spot_of place.now) (stored_of t)) v) }
{
    let mut behind = Vec::new(alloc);
    for successor in successors {
        add_behind(&mut behind, against, place, successor, constant, chosen)?;
    }
    Ok(behind)
}

/// Adds the place behind a move, if it isn't lost.
fn add_behind(
    behind: &mut Vec<Place>,
    against: &Against<'_>,
    place: &Place,
    successor: Successor,
    constant: bool,
    chosen: Option<ListedStore>,
) -> Result<(), OutOfMemory>
    requires { place.now.count < 2 ^ 64 - 1 }
    ensures grows { OnOk result (Grows behind.old.items behind.new.items) }
    ensures moves { OnOk result ((owns : ℕ → ℕ → Bool) (v : Move) →
        FollowsApart owns against.now.hart (listed against.now.list.now)
        (state_of place.now.state) v successor →
        (IsTrue constant → constant_after place.now.constant v ≡ true) →
        LeadsOn owns against.now.hart (listed against.now.list.now) (spots_of behind.new.items)
        (spot_of place.now) v) }
    ensures later { OnOk result ((owns : ℕ → ℕ → Bool) (v : Move) (t : ListedStore) →
        FollowsApart owns against.now.hart (listed against.now.list.now)
        (state_of place.now.state) v successor →
        (IsTrue constant → constant_after place.now.constant v ≡ true) → chosen ≡ Some t →
        successor.done ≡ Some (length against.now.list.now + 1) →
        LeadsOn owns against.now.hart (listed against.now.list.now) (spots_of behind.new.items)
        (spot_with (spot_of place.now) (stored_of t)) v) }
{
    let alloc = *behind.allocator();
    let later = is_later(against.list, &successor);
    let reached = place_behind(alloc, place, successor, constant)?;
    if is_lost(against.hart, against.list, place, &reached) {
        return Ok(());
    }
    add_chosen(behind, &reached, only_if(later, chosen))?;
    behind.push(reached)?;
    Ok(())
}

/// Whether a move stores LATER.
fn is_later(list: &[ListedStore], successor: &Successor) -> bool
    ensures { successor.now.done ≡ Some (length list.now + 1) → IsTrue result }
{
    match successor.done {
        Some(time) => time == list.len() + 1,
        None => false,
    }
}

/// The store that was chosen, only behind a move that stores LATER.
fn only_if(later: bool, chosen: Option<ListedStore>) -> Option<ListedStore>
    ensures { IsTrue later → result ≡ chosen }
{
    if later { chosen } else { None }
}

/// Adds a place with the store that was chosen to come next, if there is one.
fn add_chosen(
    behind: &mut Vec<Place>,
    reached: &Place,
    chosen: Option<ListedStore>,
) -> Result<(), OutOfMemory>
    ensures grows { OnOk result (Grows behind.old.items behind.new.items) }
    ensures covered { OnOk result ((m : List Stored) (t : ListedStore) → chosen ≡ Some t →
        IsCoveredApart m (spots_of behind.new.items)
        (spot_with (spot_of reached.now) (stored_of t))) }
{
    let store = match chosen {
        Some(store) => store,
        None => return Ok(()),
    };
    let with = place_with(*behind.allocator(), reached, store)?;
    behind.push(with)?;
    Ok(())
}
