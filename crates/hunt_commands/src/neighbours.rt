//! Tables that go on where others end.
ghost use Rattle.hunt_commands.specs.Merges.{HasFirstApart, IsApartFor};

use crate::table_files::TableFile;
use hunt_table::{Table, are_same_programs, are_same_ranges, harts_of};
use program_files::Apart;

/// The index of the first table that isn't that of the slice which follows on the one before it, and how it isn't.
pub(crate) fn first_apart(files: &[TableFile<'_>]) -> Option<(usize, Apart)>
    ensures { HasFirstApart files.now result }
{
    for index in 1..files.len() {
        if let Some(why) = apart_from(&files[index - 1].table, &files[index].table) {
            return Some((index, why));
        }
    }
    None
}

/// How a table isn't that of the slice which follows on another one, if it isn't.
fn apart_from(last: &Table, next: &Table) -> Option<Apart>
    ensures { IsApartFor result last.now next.now }
{
    let end = u64::from(last.header.first) + u64::from(last.header.count);
    let first = u64::from(next.header.first);
    if !are_same_programs(next.header.program, last.header.program) {
        Some(Apart::Program)
    } else if next.header.is_weak != last.header.is_weak {
        Some(Apart::Kind)
    } else if next.header.seed != last.header.seed {
        Some(Apart::Seed)
    } else if !are_same_ranges(&next.header.ranges, &last.header.ranges) {
        Some(Apart::Bytes)
    } else if harts_of(&next.rows) != harts_of(&last.rows) {
        Some(Apart::Harts)
    } else if end < first {
        Some(Apart::Gap)
    } else if first < end {
        Some(Apart::Overlap)
    } else {
        None
    }
}
