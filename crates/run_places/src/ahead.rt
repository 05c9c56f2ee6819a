//! States and places that stand for others.
ghost use Rattle.std.specs.Prelude.{◌≡◌, ◌≤◌, ◌<◌, ℕ, true, IsTrue, length};
ghost use Rattle.hart_states.specs.States.{state_of};
ghost use Rattle.private_bytes.specs.Ahead.{IsAhead, OutputTells, Tells, TellsAll};
ghost use Rattle.list_suffixes.specs.ApartRuns.{StandsForAlways};
ghost use Rattle.run_places.specs.Spots.{is_among, spot_of};

use crate::bounds::{all_at_most, byte_tells, bytes_ahead, carried_at_most, kinds_at_most};
use crate::place::{Place, is_paid};
use hart_states::RunState;

/// Whether a place stands for another one: it was reached by no more instructions, its bounds are at most the other's, it knows what the
/// other one knows, it did all that the other one did of the list, and it is the same otherwise.
pub fn stands_for(place: &Place, other: &Place) -> bool
    ensures { IsTrue result → StandsForAlways (spot_of place.now) (spot_of other.now) }
{
    place.count <= other.count
        && place.next == other.next
        && (!place.constant || other.constant)
        && did_all(&place.paid, &other.paid)
        && is_ahead(&place.state, &other.state)
}

/// Whether all stores that were done in one place were done in another one.
fn did_all(paid: &[usize], others: &[usize]) -> bool
    ensures { IsTrue result → (j : ℕ) → is_among others.now j ≡ true → is_among paid.now j ≡ true }
{
    for index in 0..others.len() {
        if !is_paid(paid, others[index]) {
            return false;
        }
    }
    true
}

/// Whether a state is ahead of another.
fn is_ahead(a: &RunState, b: &RunState) -> bool
    ensures { IsTrue result → IsAhead (state_of a.now) (state_of b.now) }
{
    a.pc == b.pc
        && a.held == b.held
        && a.reserved <= b.reserved
        && registers_tell(&b.registers, &a.registers)
        && output_tells(&b.output, &a.output)
        && kinds_at_most(&a.kinds, &b.kinds)
        && carried_at_most(&a.carried, &b.carried)
        && bytes_ahead(&a.bytes, &b.bytes)
        && sources_ahead(a, b)
}

/// Whether bytes that are reserved are from no earlier stores. Where none are, nothing hangs on the sources (atomicity).
fn sources_ahead(a: &RunState, b: &RunState) -> bool
    ensures { IsTrue result → a.now.held ≡ b.now.held →
        (x : ℕ) → (state_of b.now).sources x ≤ (state_of a.now).sources x }
{
    match b.held {
        Some(_) => all_at_most(&b.sources, &a.sources),
        None => true,
    }
}

/// Whether all registers that are known are the same in others.
fn registers_tell(told: &[Option<u64>; 32], teller: &[Option<u64>; 32]) -> bool
    ensures size { length teller.now ≡ length told.now }
    ensures tells { IsTrue result → TellsAll told.now teller.now }
{
    for register in 0..32 {
        if !register_tells(told[register], teller[register]) {
            return false;
        }
    }
    true
}

fn register_tells(told: Option<u64>, teller: Option<u64>) -> bool
    ensures { IsTrue result → Tells told teller }
{
    told.is_none() || told == teller
}

/// Whether what was put out is the same, byte by byte, where it is known.
fn output_tells(told: &[Option<u8>], teller: &[Option<u8>]) -> bool
    ensures { IsTrue result → OutputTells told.now teller.now }
{
    if told.len() != teller.len() {
        return false;
    }
    for index in 0..told.len() {
        if !byte_tells(told[index], teller[index]) {
            return false;
        }
    }
    true
}
