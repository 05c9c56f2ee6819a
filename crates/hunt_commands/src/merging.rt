ghost use Rattle.std.specs.Prelude.{◌≡◌, ◌⊎◌, ◌++◌, IfErr, IfOk, OnErr};
ghost use Rattle.host_io.specs.Taken.{BeganText};
ghost use Rattle.hunt_commands.specs.Merges.{AskedMerge, EndsMerge, IsFirstApartAt, IsMergeEnd, SetMerge, TellsApart, merged_text};
ghost use Rattle.hunt_commands.specs.Status.{hunt_status};
ghost use Rattle.program_files.specs.Failures.{HasFailed};

use crate::neighbours::first_apart;
use crate::repeating::tell_merged;
use crate::status::hunt_status;
use crate::table_files::{TableFile, tables_in_order, texts_of};
use command_line::Merge;
use hunt_table::{Table, merge};
use program_files::{Apart, CommandFailure, ExitStatus, Output, World};
use std::alloc::{AllocError, Global};

/// Joins the tables of some files, whose order doesn't matter, and prints the table of all their plans. Standard error says for each ending
/// the line that runs the program so, as far as a table knows it, and where harts loop or run on.
///
/// # Errors
///
/// For the files in the order of the line, `File` where one can't be read and `NotATable` where one has no table; then `Apart` for the
/// first two neighbours, in the order of their first plans, of which the second isn't the slice that follows; then `Merge`. The refusal of
/// memory comes at any time, and `SinkFailed` at last where the output can't be written.
pub fn merge_command<W: World, O: Output>(
    alloc: Global,
    world: &W,
    asked: &Merge<'_>,
    out: &mut O,
) -> Result<ExitStatus, CommandFailure>
    // All that was printed is the table that those in the files of the line are merged to, and the status is that of this table.
    ensures merges { IfOk result (λ status. (a : AskedMerge (W.files world.now) asked.now) ×
        (O.took out.new ≡ O.took out.old ++ merged_text a.made) × O.is_out out.new ×
        (status ≡ hunt_status asked.now.fail_on a.made.table.rows.items)) }
    // Else nothing was printed, or a beginning of that table.
    ensures begun { OnErr result ((O.took out.new ≡ O.took out.old) ⊎
        ((a : AskedMerge (W.files world.now) asked.now) ×
        BeganText (O.took out.old) (O.took out.new) (merged_text a.made))) }
    ensures errors { IfErr result (EndsMerge (W.files world.now) asked.now
        (HasFailed O.failures O.is_stuck out.old out.new)) }
{
    let tables = tables_in_order(world, alloc, &asked.tables)?;
    let table = put_merged(alloc, tables, out)?;
    out.hand_on()?;
    // What was asked for is out.
    tell_merged(&table, world);
    Ok(hunt_status(asked.fail_on, &table.rows))
}

/// Prints the table that some tables, which are in the order of their first plans, are merged to, and answers it.
fn put_merged<O: Output>(
    alloc: Global,
    files: Vec<TableFile<'_>>,
    out: &mut O,
) -> Result<Table, CommandFailure>
    ensures merges { IfOk result (λ t. (m : SetMerge files.entry.items) ×
        (O.took out.new ≡ O.took out.old ++ merged_text m) × (t ≡ m.table)) }
    ensures begun { OnErr result ((O.took out.new ≡ O.took out.old) ⊎
        ((m : SetMerge files.entry.items) ×
        BeganText (O.took out.old) (O.took out.new) (merged_text m))) }
    ensures errors { IfErr result (IsMergeEnd files.entry.items
        (HasFailed O.failures O.is_stuck out.old out.new)) }
{
    if let Some((index, why)) = first_apart(&files) {
        return Err(apart_at(alloc, &files, index, why)?);
    }
    let texts = texts_of(alloc, files)?;
    Ok(merge(alloc, &texts, out)?)
}

/// The failure of the table at a index, the first that isn't that of the slice which follows on the one before it.
fn apart_at(
    alloc: Global,
    files: &[TableFile<'_>],
    index: usize,
    why: Apart,
) -> Result<CommandFailure, AllocError>
    requires { IsFirstApartAt files.now index why }
    ensures { IfOk result (TellsApart files.now) }
{
    let last = String::from_str(alloc, files[index - 1].path)?;
    let next = String::from_str(alloc, files[index].path)?;
    Ok(CommandFailure::Apart(last, next, why))
}
