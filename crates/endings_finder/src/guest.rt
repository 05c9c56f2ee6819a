ghost use Rattle.std.specs.Prelude.{◌≡◌, ◌+◌, ◌≤◌, ◌<◌, ◌^◌, All, IfOk, map};
ghost use Rattle.ending_judge.specs.JudgedEndings.{ranges_of};

use crate::program::Program;
use all_search::Guest as SearchedGuest;
use early_loads::GuestCode;
use execution_makers::ScriptedGuest;
use hunt_table::SeenRange;
use pages::{OutOfMemory, Range};
use std::alloc::Global;

/// A guest whose endings are searched for.
#[derive(Drop)]
pub(crate) struct Guest<'a> {
    pub alloc: Global,
    /// The program as executions begin with it.
    pub program: &'a Program,
    /// Its harts and its input, and what the executions are of that are kept.
    pub scripted: ScriptedGuest<'a>,
    /// The bytes that are looked at.
    pub ranges: &'a [SeenRange],
    /// Whether executions are kept.
    pub keeps: bool,
    ghost few_harts: { scripted.harts ≤ 64 },
    ghost some_pages: { 1 ≤ scripted.pages },
    ghost few_pages: { scripted.pages ≤ 16384 },
}

/// The guest as the search has it, with so many instructions of each hart.
///
/// # Errors
///
/// `OutOfMemory` alone.
pub(crate) fn searched_guest(guest: &Guest<'_>, steps: u32) -> Result<SearchedGuest, OutOfMemory> {
    let (alloc, scripted) = (guest.alloc, &guest.scripted);
    Ok(SearchedGuest {
        code: GuestCode::new(alloc, guest.program.memory(alloc)?)?,
        input: Vec::from_slice(alloc, scripted.input)?,
        harts: guest.program.harts(alloc, scripted.harts)?,
        most_steps: u64::from(steps),
    })
}

/// The ranges without their names, as the search has them.
///
/// # Errors
///
/// `OutOfMemory` alone.
pub(crate) fn searched_ranges(
    alloc: Global,
    ranges: &[SeenRange],
) -> Result<Vec<Range>, OutOfMemory>
    ensures ranges { IfOk result (λ v. v.items ≡ ranges_of ranges.now) }
    ensures fits { IfOk result (λ v. All (λ r. r.start + r.len < 2 ^ 64) v.items) }
{
    let mut searched = Vec::new(alloc);
    for range in ranges {
        searched.push(Range {
            start: u64::from(range.address),
            len: u64::from(range.length),
        })?;
    }
    Ok(searched)
}
