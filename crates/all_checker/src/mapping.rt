//! Maps of the code of all harts.
ghost use Rattle.std.specs.Prelude.{◌≡◌, ◌≤◌, length, IfOk};
ghost use Rattle.early_reads.specs.Checking.{map_of};
ghost use Rattle.early_reads.specs.EarlyMaps.{IsRight};
ghost use Rattle.own_moves.specs.Owned.{owns_of};
ghost use Rattle.ending_nodes.specs.Raising.{AreRight};

use early_reads::{EarlyPoint, is_right, map_code};
use hart_step::Hart;
use pages::{OutOfMemory, Pages};
use run_places::OwnDoubleword;
use std::alloc::Global;

/// A map of each hart's code that is right.
///
/// # Errors
///
/// `OutOfMemory` alone.
pub(crate) fn right_maps(
    alloc: Global,
    pages: &Pages,
    owned: &[OwnDoubleword],
    harts: &[Hart],
) -> Result<Vec<Vec<EarlyPoint>>, OutOfMemory>
    requires { length harts.now ≤ 64 }
    ensures many { IfOk result (λ v. length v.items ≡ length harts.now) }
    ensures right { IfOk result (λ v. AreRight (owns_of owned.now) pages.now.memory v.items) }
{
    let mut maps = Vec::new(alloc);
    for hart in 0..harts.len() {
        let points = right_map(alloc, pages, owned, hart as u8, &harts[hart])?;
        maps.push(points)?;
    }
    Ok(maps)
}

/// A map of a hart's code that is right: an empty one, where none was found.
fn right_map(
    alloc: Global,
    pages: &Pages,
    owned: &[OwnDoubleword],
    hart: u8,
    start: &Hart,
) -> Result<Vec<EarlyPoint>, OutOfMemory>
    ensures { IfOk result (λ v. IsRight (map_of v.items) (owns_of owned.now) pages.now.memory
        hart) }
{
    let points = map_code(alloc, pages, owned, hart, start)?;
    if is_right(&points, pages, owned, hart) {
        return Ok(points);
    }
    Ok(Vec::new(alloc))
}
