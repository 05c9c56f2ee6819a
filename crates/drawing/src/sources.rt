//! Where each byte that an operation reads is from.

use crate::scene::ExecutionScene;
use byte_sources::writes;
use pages::OutOfMemory;
use round_schedule::Event;
use std::alloc::Global;

/// The index of the operation that the byte at an address is from, as an operation reads it: of those that write it and stand before this one
/// in the order, or that its own hart did before it, the one that stands last. `None` where the byte is as memory opened.
fn source_of(
    scene: &ExecutionScene<'_>,
    position: usize,
    sought: usize,
    event: &Event,
    address: u64,
) -> Option<usize> {
    for candidate in (0..scene.order.len()).rev() {
        let Some((index, other)) = scene.operation(candidate) else {
            continue;
        };
        let precedes = candidate < position || (other.hart == event.hart && index < sought);
        if precedes && writes(&other.access, address) {
            return Some(index);
        }
    }
    None
}

/// The indexes of the operations that the bytes are from which the operation at a position reads; none where it reads nothing.
pub(crate) fn sources_of(
    alloc: Global,
    scene: &ExecutionScene<'_>,
    position: usize,
    index: usize,
    event: &Event,
) -> Result<Vec<Option<usize>>, OutOfMemory> {
    let mut found = Vec::new(alloc);
    if event.access.loads() {
        for offset in 0..event.access.byte_count() {
            let address = event.access.address().saturating_add(offset);
            found.push(source_of(scene, position, index, event, address))?;
        }
    }
    Ok(found)
}
