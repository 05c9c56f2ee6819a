ghost use Rattle.hunt_comparison.specs.Unlikes.{IsUnlikeness};
ghost use Rattle.hunt_table.specs.Merging.{harts_of};

use hunt_table::{Table, are_alike_ranges, harts_of};
use program_files::Unlike;

/// Why two tables can't be compared, if they can't be.
pub fn unlikeness(old_table: &Table, new_table: &Table) -> Option<Unlike>
    ensures { IsUnlikeness old_table.now new_table.now result }
{
    if harts_of(&old_table.rows) != harts_of(&new_table.rows) {
        Some(Unlike::Harts)
    } else if !are_alike_ranges(&old_table.header.ranges, &new_table.header.ranges) {
        Some(Unlike::Bytes)
    } else {
        None
    }
}
