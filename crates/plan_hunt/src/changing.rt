ghost use Rattle.std.specs.Prelude.{◌≡◌, ◌<◌, ◌++◌, IfOk, OnOk, length, map};
ghost use Rattle.plan_hunt.specs.Steps.{changed, rows_after, smaller, with_single};

use crate::size::least;
use crate::step::{Change, Step, Way};
use std::alloc::{AllocError, Global};

/// The row with smaller quotas.
fn with_each(alloc: Global, row: &[u32], way: Way) -> Result<Vec<u32>, AllocError>
    ensures { IfOk result (λ v. v.items ≡ map (smaller way) row.now) }
{
    row.iter().map(|quota| way.smaller(*quota)).collect(alloc)
}

/// The row with a smaller quota of one hart, where it has one.
fn with_single(alloc: Global, row: &[u32], hart: usize, way: Way) -> Result<Vec<u32>, AllocError>
    ensures { IfOk result (λ v. v.items ≡ with_single hart way row.now) }
{
    let mut copy = Vec::from_slice(alloc, row)?;
    if hart < row.len() {
        copy[hart] = way.smaller(row[hart]);
    }
    Ok(copy)
}

/// Adds what stands in the place of a row.
fn add_changed(
    alloc: Global,
    rows: &mut Vec<Vec<u32>>,
    row: &[u32],
    change: Change,
) -> Result<(), AllocError>
    ensures { OnOk result (map (λ r. r.items) rows.new.items ≡
        map (λ r. r.items) rows.old.items ++ changed change row.now) }
{
    let row = match change {
        Change::LeftOut => return Ok(()),
        Change::Least => Vec::from_slice(alloc, &[least(row)])?,
        Change::Each(way) => with_each(alloc, row, way)?,
        Change::Single(hart, way) => with_single(alloc, row, hart, way)?,
    };
    rows.push(row)?;
    Ok(())
}

/// Adds copies of rows.
pub(crate) fn add_copies(
    alloc: Global,
    rows: &mut Vec<Vec<u32>>,
    others: &[Vec<u32>],
) -> Result<(), AllocError>
    ensures { OnOk result (map (λ r. r.items) rows.new.items ≡
        map (λ r. r.items) rows.old.items ++ map (λ r. r.items) others.now) }
{
    for other in others {
        rows.push(Vec::from_slice(alloc, other)?)?;
    }
    Ok(())
}

/// The rows after a step.
pub(crate) fn rows_after(
    alloc: Global,
    rows: &[Vec<u32>],
    step: Step,
) -> Result<Vec<Vec<u32>>, AllocError>
    requires { step.row < length rows.now }
    ensures { IfOk result (λ v. map (λ r. r.items) v.items ≡
        rows_after step (map (λ r. r.items) rows.now)) }
{
    let mut after = Vec::new(alloc);
    add_copies(alloc, &mut after, &rows[..step.row])?;
    add_changed(alloc, &mut after, &rows[step.row], step.change)?;
    add_copies(alloc, &mut after, &rows[step.row + 1..])?;
    Ok(after)
}
