//! Where a run of a hart is.
ghost use Rattle.std.specs.Prelude.{◌≡◌, ◌<◌, ◌-◌, ◌^◌, ℕ, Bool, true, List, length, IfOk, IsTrue, Some};
ghost use Rattle.all_endings.specs.RunStates.{Move};
ghost use Rattle.all_endings.specs.StoreLists.{Stored};
ghost use Rattle.hart_states.specs.States.{state_of, stored_of};
ghost use Rattle.own_moves.specs.Moves.{FollowsApart};
ghost use Rattle.private_bytes.specs.PrivateWalks.{constant_after, first_spot, spot_after, spot_with};
ghost use Rattle.list_suffixes.specs.ApartRuns.{StandsForAlways};
ghost use Rattle.run_places.specs.Spots.{is_among, spot_of};

use hart_states::{ListedStore, RunState, Successor, is_sized, start};
use hart_step::Hart;
use pages::OutOfMemory;
use private_bytes::lower_states_are_ahead;
use std::alloc::Global;

/// Where a run of a hart is.
#[derive(Drop)]
pub struct Place {
    /// Its state.
    pub state: RunState,
    /// How many instructions it did.
    pub count: u64,
    /// Which stores of the list it did.
    pub paid: Vec<usize>,
    /// The store that comes next, if it was offered one.
    pub next: Option<ListedStore>,
    /// Whether the number in x17 is a constant of the code.
    pub constant: bool,
}

impl Place {
    ghost use Rattle.std.specs.Prelude.{◌≡◌, IfOk};
    ghost use Rattle.run_places.specs.Spots.{spot_of};

    /// The same place once more.
    ///
    /// # Errors
    ///
    /// `OutOfMemory` alone.
    pub fn copy(&self, alloc: Global) -> Result<Place, OutOfMemory>
        ensures { IfOk result (λ q. spot_of q ≡ spot_of self.now) }
    {
        Ok(Place {
            state: copied(alloc, &self.state)?,
            count: self.count,
            paid: Vec::from_slice(alloc, &self.paid)?,
            next: self.next,
            constant: self.constant,
        })
    }
}

/// Where a hart's runs begin.
pub fn first_place(alloc: Global, hart: &Hart) -> Place
    ensures { StandsForAlways (spot_of result) (first_spot hart.now) }
{
    lower_states_are_ahead();
    Place {
        state: start(alloc, hart),
        count: 0,
        paid: Vec::new(alloc),
        next: None,
        constant: true,
    }
}

/// Whether a store of the list is among those that were done.
pub fn is_paid(paid: &[usize], store: usize) -> bool
    ensures { result ≡ is_among paid.now store }
{
    paid.contains(&store)
}

/// The place behind a move, and whether the number in x17 is a constant there. What it stands for it stands for whatever the list is.
///
/// # Errors
///
/// `OutOfMemory` alone.
pub fn place_behind(
    alloc: Global,
    place: &Place,
    successor: Successor,
    constant: bool,
) -> Result<Place, OutOfMemory>
    requires { place.now.count < 2 ^ 64 - 1 }
    ensures { IfOk result (λ q. (owns : ℕ → ℕ → Bool) (h : ℕ) (m : List Stored) (v : Move) →
        FollowsApart owns h m (state_of place.now.state) v successor →
        (IsTrue constant → constant_after place.now.constant v ≡ true) →
        StandsForAlways (spot_of q) (spot_after owns h m (spot_of place.now) v)) }
{
    let Successor { state, done } = successor;
    Ok(Place {
        state,
        count: place.count + 1,
        paid: paid_more(alloc, &place.paid, done)?,
        next: place.next,
        constant,
    })
}

/// What was done, and one store more.
fn paid_more(alloc: Global, paid: &[usize], done: Option<usize>) -> Result<Vec<usize>, OutOfMemory>
    ensures kept { IfOk result (λ v. (j : ℕ) → is_among paid.now j ≡ true → is_among v.items j ≡
        true) }
    ensures more { IfOk result (λ v. (j : ℕ) → done ≡ Some j → is_among v.items j ≡ true) }
{
    match done {
        Some(store) => paid_with(alloc, paid, store),
        None => Ok(Vec::from_slice(alloc, paid)?),
    }
}

fn paid_with(alloc: Global, paid: &[usize], store: usize) -> Result<Vec<usize>, OutOfMemory>
    ensures kept { IfOk result (λ v. (j : ℕ) → is_among paid.now j ≡ true → is_among v.items j ≡
        true) }
    ensures more { IfOk result (λ v. is_among v.items store ≡ true) }
{
    let mut all = Vec::from_slice(alloc, paid)?;
    if is_paid(paid, store) {
        return Ok(all);
    }
    all.push(store)?;
    Ok(all)
}

/// The place with a store that comes next.
pub(crate) fn place_with(
    alloc: Global,
    place: &Place,
    store: ListedStore,
) -> Result<Place, OutOfMemory>
    ensures { IfOk result (λ q.
        StandsForAlways (spot_of q) (spot_with (spot_of place.now) (stored_of store))) }
{
    is_itself(place);
    Ok(Place {
        state: copied(alloc, &place.state)?,
        count: place.count,
        paid: Vec::from_slice(alloc, &place.paid)?,
        next: Some(store),
        constant: place.constant,
    })
}

/// The same state once more.
fn copied(alloc: Global, state: &RunState) -> Result<RunState, OutOfMemory>
    ensures { IfOk result (λ s. state_of s ≡ state_of state.now) }
{
    Ok(RunState {
        pc: state.pc,
        registers: state.registers,
        kinds: state.kinds,
        carried: state.carried,
        bytes: Vec::from_slice(alloc, &state.bytes)?,
        held: state.held,
        reserved: state.reserved,
        sources: state.sources,
        output: Vec::from_slice(alloc, &state.output)?,
    })
}

/// A place stands for itself.
pub(crate) fn is_itself(place: &Place)
    ensures { StandsForAlways (spot_of place.now) (spot_of place.now) }
{
    is_sized(&place.state);
}
