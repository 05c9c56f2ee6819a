ghost use Rattle.std.specs.Prelude.{◌≡◌, ◌⊎◌, ◌↔◌, ◌+◌, ◌<◌, ◌^◌, Err, IfErr, IsTrue, OnOk};
ghost use Rattle.host_io.specs.declared.error.RunError.TheVariants as refusals;
ghost use Rattle.hunt_table.specs.Merging.{Adjoins, IsAppended, harts_of};
ghost use Rattle.hunt_table.specs.declared.merge_error.MergeError.TheVariants.{Apart, OtherProgram, Run};

use crate::fingerprint::are_same_programs;
use crate::header::Header;
use crate::merge_error::MergeError;
use crate::seen_range::are_same_ranges;
use crate::table::Table;
use plan_hunt::{Row, join};

/// How many harts the endings have, by the first; 0 where there is none.
pub fn harts_of(rows: &[Row]) -> usize
    ensures { result ≡ harts_of rows.now }
{
    match rows {
        [] => 0,
        [first, ..] => first.ending.stops().len(),
    }
}

/// Whether a number of plans from a plan on stays below 2^32.
pub(crate) fn are_few(first: u32, count: u32) -> bool
    ensures { IsTrue result ↔ (first + count < 2 ^ 32) }
{
    count <= u32::MAX - first
}

/// Whether the plans of a header are those that follow another's. Their number, with those before, stays below 2^32.
fn follows(header: &Header, next: &Header) -> bool
    ensures { IsTrue result ↔ ((next.now.first ≡ header.now.first + header.now.count) ×
        (header.now.first + header.now.count + next.now.count < 2 ^ 32)) }
{
    let end = u64::from(header.first) + u64::from(header.count);
    u64::from(next.first) == end && end + u64::from(next.count) <= u64::from(u32::MAX)
}

/// Whether a table has the plans that follow those of another, in the same hunt of so many harts.
fn adjoins(whole: &Table, table: &Table, harts: usize) -> bool
    ensures { IsTrue result ↔ Adjoins harts whole.now table.now }
{
    are_same_programs(table.header.program, whole.header.program)
        && table.header.is_weak == whole.header.is_weak
        && table.header.seed == whole.header.seed
        && are_same_ranges(&table.header.ranges, &whole.header.ranges)
        && harts_of(&table.rows) == harts
        && follows(&whole.header, &table.header)
}

/// Joins to a table that of the plans which follow.
pub(crate) fn append(whole: &mut Table, table: Table, harts: usize) -> Result<(), MergeError>
    ensures ok { OnOk result (Adjoins harts whole.old table ×
        IsAppended whole.old table whole.new) }
    ensures apart { result ≡ Err Apart → Adjoins harts whole.old table → ⊥ }
    ensures other { result ≡ Err OtherProgram →
        table.header.program ≡ whole.old.header.program → ⊥ }
    ensures errors { IfErr result (λ e. (e ≡ Apart) ⊎ (e ≡ OtherProgram) ⊎
        (e ≡ Run refusals.OutOfMemory)) }
{
    if !are_same_programs(table.header.program, whole.header.program) {
        return Err(MergeError::OtherProgram);
    }
    if !adjoins(whole, &table, harts) {
        return Err(MergeError::Apart);
    }
    let Table { header, rows } = table;
    join(&mut whole.rows, rows)?;
    whole.header.count += header.count;
    Ok(())
}
