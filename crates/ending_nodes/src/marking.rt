//! Which nodes are compared.

use crate::node::Node;
use hart_states::ListedStore;

/// What a mark is multiplied by where a number comes to it: an odd number without a pattern.
const MULTIPLIER: u64 = 0x9e37_79b9_7f4a_7c15;

/// A number that two nodes share of which the one may stand for the other: of their memory and their stores. Nothing hangs on it but which
/// nodes are looked at.
pub(crate) fn mark_of(node: &Node) -> u64 {
    let behind = with_stores(0, &node.behind);
    with_stores(behind.wrapping_add(1), &node.list)
}

/// A mark, and some stores more.
fn with_stores(before: u64, stores: &[ListedStore]) -> u64 {
    let mut mark = before;
    for store in stores {
        mark = with(mark, store.address);
        mark = with(mark, store.number);
        mark = with(mark, u64::from(store.hart));
    }
    mark
}

/// A mark, and one number more.
fn with(mark: u64, number: u64) -> u64 {
    mark.wrapping_mul(MULTIPLIER).wrapping_add(number)
}
