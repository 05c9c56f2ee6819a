//! The places behind the moves of a place that are known.
ghost use Rattle.std.specs.Prelude.{◌≡◌, ◌<◌, ◌^◌, ◌-◌, ℕ, Bool, true, length, Contains, IfOk, IfSome, IsTrue, OnOk};
ghost use Rattle.all_endings.specs.RunStates.{Move};
ghost use Rattle.hart_states.specs.Opening.{opening_of};
ghost use Rattle.hart_states.specs.States.{listed, state_of};
ghost use Rattle.own_moves.specs.Moves.{FollowsApart};
ghost use Rattle.own_moves.specs.Owned.{owns_of};
ghost use Rattle.private_bytes.specs.PrivateWalks.{constant_after};
ghost use Rattle.run_places.specs.Spots.{Grows, spot_of, spots_of};
ghost use Rattle.settled_walks.specs.KnownWalks.{CoverKnown, IsFollowedBy};
ghost use Rattle.settled_walks.specs.Within.{IsWithin};

use crate::losing::cant_pay;
use crate::within::is_within;
use hart_moves::Reached;
use hart_states::{Successor, is_sized};
use own_moves::moves;
use pages::OutOfMemory;
use private_bytes::{earliest_private_move_is_lowest, lower_states_are_ahead};
use run_places::{Against, Place, place_behind, stays_constant};
use std::alloc::Global;

/// The places behind the known moves of a place that stands nowhere behind the list, but for those that are lost. None where a call may have any
/// answer.
pub(crate) fn known_behind(
    alloc: Global,
    against: &Against<'_>,
    place: &Place,
) -> Result<Option<Vec<Place>>, OutOfMemory>
    requires within { IsWithin (length against.now.list.now) (state_of place.now.state) }
    ensures { IfOk result (λ r. IfSome r (λ ps.
        CoverKnown (owns_of against.now.owned.now) against.now.steps
        against.now.memory.pages.now.memory against.now.hart (listed against.now.list.now)
        (opening_of against.now.memory) (spot_of place.now) (spots_of ps.items))) }
{
    if place.count >= against.steps {
        return Ok(Some(Vec::new(alloc)));
    }
    is_sized(&place.state);
    earliest_private_move_is_lowest();
    lower_states_are_ahead();
    let next = moves(
        alloc,
        &against.memory,
        against.hart,
        against.list,
        against.owned,
        &place.state,
    )?;
    match next {
        Reached::AnyAnswer => Ok(None),
        Reached::Whole(successors) => {
            let constant = stays_constant(against.memory.pages, place);
            let behind = all_behind(alloc, against, place, successors, constant)?;
            Ok(Some(behind))
        }
    }
}

/// The places behind those moves that leave a state that stands nowhere behind the list.
fn all_behind(
    alloc: Global,
    against: &Against<'_>,
    place: &Place,
    successors: Vec<Successor>,
    constant: bool,
) -> Result<Vec<Place>, OutOfMemory>
    requires { place.now.count < 2 ^ 64 - 1 }
    ensures { IfOk result (λ ps. (owns : ℕ → ℕ → Bool) (v : Move) (s : Successor) →
        Contains successors.items s →
        FollowsApart owns against.now.hart (listed against.now.list.now)
        (state_of place.now.state) v s →
        IsWithin (length against.now.list.now) (state_of s.state) →
        (IsTrue constant → constant_after place.now.constant v ≡ true) →
        IsFollowedBy owns against.now.hart (listed against.now.list.now) (spot_of place.now) v
        (spots_of ps.items)) }
{
    let mut behind = Vec::new(alloc);
    for successor in successors {
        add_known(&mut behind, against, place, successor, constant)?;
    }
    Ok(behind)
}

/// Adds the place behind a move, if it stands nowhere behind the list, and isn't lost.
fn add_known(
    behind: &mut Vec<Place>,
    against: &Against<'_>,
    place: &Place,
    successor: Successor,
    constant: bool,
) -> Result<(), OutOfMemory>
    requires { place.now.count < 2 ^ 64 - 1 }
    ensures grows { OnOk result (Grows behind.old.items behind.new.items) }
    ensures followed { OnOk result ((owns : ℕ → ℕ → Bool) (v : Move) →
        FollowsApart owns against.now.hart (listed against.now.list.now)
        (state_of place.now.state) v successor →
        IsWithin (length against.now.list.now) (state_of successor.state) →
        (IsTrue constant → constant_after place.now.constant v ≡ true) →
        IsFollowedBy owns against.now.hart (listed against.now.list.now) (spot_of place.now) v
        (spots_of behind.new.items)) }
{
    if !is_within(&successor.state, against.list.len()) {
        return Ok(());
    }
    let alloc = *behind.allocator();
    let reached = place_behind(alloc, place, successor, constant)?;
    if cant_pay(against.hart, against.list, &reached) {
        return Ok(());
    }
    behind.push(reached)?;
    Ok(())
}
