ghost use Rattle.std.specs.Prelude.{◌≡◌, ◌⊎◌, ◌++◌, IfErr, IfOk, OnErr};
ghost use Rattle.host_io.specs.Taken.{BeganText};
ghost use Rattle.hunt_comparison.specs.Compares.{AskedComparison, ComparedTables, EndsComparison, IsComparedEnd, compared_text};
ghost use Rattle.hunt_comparison.specs.Status.{compare_status};
ghost use Rattle.program_files.specs.Failures.{HasFailed};

use crate::status::compare_status;
use crate::twins::compare_rows;
use crate::unlike::unlikeness;
use crate::writing::write_comparison;
use command_line::Compare;
use hunt_commands::read_table_of;
use hunt_table::Table;
use program_files::{CommandFailure, ExitStatus, Output, World};
use std::alloc::Global;

/// Compares the tables of two files, as of an old and of a new build of a program, and prints the endings that only one of them has, and those
/// whose share of the plans changed.
///
/// # Errors
///
/// `File` and `NotATable` where one can't be read, the old one before the new one; then `Unlike`; the refusal of memory at any time, and
/// `SinkFailed` at last.
pub fn compare_command<W: World, O: Output>(
    alloc: Global,
    world: &W,
    asked: &Compare<'_>,
    out: &mut O,
) -> Result<ExitStatus, CommandFailure>
    // All that was printed is the comparison of the tables in the files, and the status is 0 where these have the same endings, and else 4.
    ensures compares { IfOk result (λ status. (a : AskedComparison (W.files world.now) asked.now) ×
        (O.took out.new ≡ O.took out.old ++ compared_text a.made) × O.is_out out.new ×
        (status ≡ compare_status a.made.olds a.made.news)) }
    // Else nothing was printed, or a beginning of that.
    ensures begun { OnErr result ((O.took out.new ≡ O.took out.old) ⊎
        ((a : AskedComparison (W.files world.now) asked.now) ×
        BeganText (O.took out.old) (O.took out.new) (compared_text a.made))) }
    ensures errors { IfErr result (EndsComparison (W.files world.now) asked.now
        (HasFailed O.failures O.is_stuck out.old out.new)) }
{
    let old_file = read_table_of(world, alloc, asked.old)?;
    let new_file = read_table_of(world, alloc, asked.new)?;
    let status = put_compared(alloc, &old_file.table, &new_file.table, out)?;
    out.hand_on()?;
    Ok(status)
}

/// Prints how two tables differ, and answers the status that goes with it.
fn put_compared<O: Output>(
    alloc: Global,
    old_table: &Table,
    new_table: &Table,
    out: &mut O,
) -> Result<ExitStatus, CommandFailure>
    ensures compares { IfOk result (λ status. (c : ComparedTables old_table.now new_table.now) ×
        (O.took out.new ≡ O.took out.old ++ compared_text c) ×
        (status ≡ compare_status c.olds c.news)) }
    ensures begun { OnErr result ((O.took out.new ≡ O.took out.old) ⊎
        ((c : ComparedTables old_table.now new_table.now) ×
        BeganText (O.took out.old) (O.took out.new) (compared_text c))) }
    ensures errors { IfErr result (IsComparedEnd old_table.now new_table.now
        (HasFailed O.failures O.is_stuck out.old out.new)) }
{
    if let Some(why) = unlikeness(old_table, new_table) {
        return Err(CommandFailure::Unlike(why));
    }
    let olds = compare_rows(alloc, &old_table.rows, &new_table.rows)?;
    let news = compare_rows(alloc, &new_table.rows, &old_table.rows)?;
    write_comparison(
        alloc,
        &old_table.header,
        &new_table.header,
        &olds,
        &news,
        out,
    )?;
    Ok(compare_status(&olds, &news))
}
