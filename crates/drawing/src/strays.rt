//! Which operations are out of their hart's order.

use crate::scene::ExecutionScene;
use pages::OutOfMemory;
use std::alloc::Global;

/// How an operation is out of its hart's order.
#[derive(Clone, Copy)]
pub(crate) enum Stray {
    /// It comes late: an operation that the program has later stands before it.
    Late,
    /// It comes early: one that the program has earlier stands behind it.
    Early,
}

/// How the operation at each position of the order is out of its hart's order, where it is. Operations of a hart that stand among each
/// other in another order than in the program do so since some of them are late, and as well since some are early: those are told that are
/// fewer. Where they are as many, a store is late and a load is early.
pub(crate) fn strays_of(
    alloc: Global,
    scene: &ExecutionScene<'_>,
) -> Result<Vec<Option<Stray>>, OutOfMemory> {
    let mut strays = Vec::with_capacity(alloc, scene.order.len())?;
    for _ in scene.order {
        strays.push(None)?;
    }
    for hart in 0..scene.harts.len() {
        let own = own_positions(alloc, scene, hart)?;
        mark_hart(alloc, scene, &own, &mut strays)?;
    }
    Ok(strays)
}

/// The positions of a hart's operations.
fn own_positions(
    alloc: Global,
    scene: &ExecutionScene<'_>,
    hart: usize,
) -> Result<Vec<usize>, OutOfMemory> {
    let mut own = Vec::new(alloc);
    for position in 0..scene.order.len() {
        if let Some((_, event)) = scene.operation(position) {
            if usize::from(event.hart) == hart {
                own.push(position)?;
            }
        }
    }
    Ok(own)
}

/// The index of the operation at a position.
fn index_at(scene: &ExecutionScene<'_>, position: usize) -> usize {
    scene.order.get(position).copied().unwrap_or(usize::MAX)
}

/// For each of these positions the least index of the operations from it on.
fn least_indexes(
    alloc: Global,
    scene: &ExecutionScene<'_>,
    own: &[usize],
) -> Result<Vec<usize>, OutOfMemory> {
    let mut least = Vec::from_slice(alloc, own)?;
    let mut lowest = usize::MAX;
    for number in (0..own.len()).rev() {
        if let Some(position) = own.get(number) {
            lowest = lowest.min(index_at(scene, *position));
        }
        if let Some(here) = least.get_mut(number) {
            *here = lowest;
        }
    }
    Ok(least)
}

/// Marks the operations of a hart, which are at these positions, block by block: no operation of a block belongs before or behind it.
fn mark_hart(
    alloc: Global,
    scene: &ExecutionScene<'_>,
    own: &[usize],
    strays: &mut [Option<Stray>],
) -> Result<(), OutOfMemory> {
    let least = least_indexes(alloc, scene, own)?;
    let mut start = 0;
    let mut greatest = 0;
    for (number, position) in own.iter().enumerate() {
        greatest = index_at(scene, *position).max(greatest);
        let next = number.saturating_add(1);
        if greatest < least.get(next).copied().unwrap_or(usize::MAX) {
            let block = own.get(start..next).unwrap_or(&[]);
            mark_block(scene, block, least.get(start..next).unwrap_or(&[]), strays);
            start = next;
        }
    }
    Ok(())
}

/// Marks those of a block that are late, or those that are early.
fn mark_block(
    scene: &ExecutionScene<'_>,
    block: &[usize],
    least: &[usize],
    strays: &mut [Option<Stray>],
) {
    let (mut late, mut early, mut is_store_late) = (0usize, 0usize, false);
    let mut greatest = 0;
    for (number, position) in block.iter().enumerate() {
        let index = index_at(scene, *position);
        if index < greatest {
            late = late.saturating_add(1);
            is_store_late = is_store_late || is_plain_store(scene, *position);
        }
        if least.get(number).copied().unwrap_or(index) < index {
            early = early.saturating_add(1);
        }
        greatest = greatest.max(index);
    }
    let stray = if late < early || late == early && is_store_late {
        Stray::Late
    } else {
        Stray::Early
    };
    mark_each(scene, block, least, stray, strays);
}

/// Whether the operation at a position only stores.
fn is_plain_store(scene: &ExecutionScene<'_>, position: usize) -> bool {
    match scene.operation(position) {
        Some((_, event)) => event.access.stores() && !event.access.loads(),
        None => false,
    }
}

/// Marks those of a block that are out of order in this way.
fn mark_each(
    scene: &ExecutionScene<'_>,
    block: &[usize],
    least: &[usize],
    stray: Stray,
    strays: &mut [Option<Stray>],
) {
    let mut greatest = 0;
    for (number, position) in block.iter().enumerate() {
        let index = index_at(scene, *position);
        let is_stray = match stray {
            Stray::Late => index < greatest,
            Stray::Early => least.get(number).copied().unwrap_or(index) < index,
        };
        greatest = greatest.max(index);
        if let Some(mark) = strays.get_mut(*position) {
            *mark = if is_stray { Some(stray) } else { None };
        }
    }
}
