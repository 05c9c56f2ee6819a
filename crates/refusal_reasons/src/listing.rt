ghost use Rattle.std.specs.Prelude.{◌≡◌, ◌≢◌, ◌<◌, ℕ, Contains, IfOk, MatchOption, length, slice_index, true, false};
ghost use Rattle.round_schedule.specs.Positions.{event};
ghost use Rattle.memory_order.specs.Operations.{is_operation};
ghost use Rattle.refusal_reasons.specs.Listing.{AreFirstPositions};
ghost use Rattle.refusal_reasons.specs.Reasons.{IsTwice};

use memory_order::is_operation_at;
use pages::OutOfMemory;
use round_schedule::Event;
use std::alloc::Global;

/// The first position at which an order has the index of no memory operation.
pub(crate) fn first_stranger(events: &[Event], order: &[usize]) -> Option<usize>
    ensures { MatchOption result
        ((p : ℕ) → p < length order.now →
        is_operation (event events.now (slice_index order.now p)) ≡ true)
        (λ p. (p < length order.now) ×
        (is_operation (event events.now (slice_index order.now p)) ≡ false)) }
{
    for p in 0..order.len() {
        if !is_operation_at(events, order[p]) {
            return Some(p);
        }
    }
    None
}

/// Of each index the first position at which an order has it; the order's length where it has it nowhere.
pub(crate) fn first_positions(
    alloc: Global,
    events: &[Event],
    order: &[usize],
) -> Result<Vec<usize>, OutOfMemory>
    requires { (p : ℕ) → p < length order.now →
        is_operation (event events.now (slice_index order.now p)) ≡ true }
    ensures { IfOk result (λ v. AreFirstPositions events.now order.now (length order.now) v.items) }
{
    let absent = order.len();
    let mut firsts = vec![in alloc; absent; events.len()]?;
    for p in 0..order.len() {
        let index = order[p];
        if firsts[index] == absent {
            firsts[index] = p;
        }
    }
    Ok(firsts)
}

/// The first index that an order has a second time.
pub(crate) fn first_twice(events: &[Event], order: &[usize], firsts: &[usize]) -> Option<usize>
    requires operations { (p : ℕ) → p < length order.now →
        is_operation (event events.now (slice_index order.now p)) ≡ true }
    requires firsts { AreFirstPositions events.now order.now (length order.now) firsts.now }
    ensures { MatchOption result
        ((i j : ℕ) → i < j → j < length order.now →
        slice_index order.now i ≢ slice_index order.now j)
        (λ a. IsTwice order.now a) }
{
    let _events = events;
    for p in 0..order.len() {
        if firsts[order[p]] != p {
            return Some(order[p]);
        }
    }
    None
}

/// The first memory operation whose index an order doesn't have.
pub(crate) fn first_left_out(events: &[Event], order: &[usize], firsts: &[usize]) -> Option<usize>
    requires { AreFirstPositions events.now order.now (length order.now) firsts.now }
    ensures { MatchOption result
        ((i : ℕ) → i < length events.now → is_operation (event events.now i) ≡ true →
        Contains order.now i)
        (λ i. (is_operation (event events.now i) ≡ true) × (Contains order.now i → ⊥)) }
{
    for i in 0..events.len() {
        if is_operation_at(events, i) && firsts[i] == order.len() {
            return Some(i);
        }
    }
    None
}
