//! The files that have the tables of slices of a hunt.
ghost use Rattle.std.specs.Prelude.{◌≡◌, IfErr, IfOk, map};
ghost use Rattle.hunt_commands.specs.Merges.{AreRead, AreTables, HoldsTable, IsReadEnd, IsUntabled, text_of};

use host_io::RunError;
use hunt_table::{ReadError, Table, read_table};
use program_files::{CommandFailure, World, read_file};
use std::alloc::{AllocError, Global};

/// A table, and the file that has it.
#[derive(Drop)]
pub struct TableFile<'a> {
    /// The path of the file.
    pub path: &'a str,
    /// What it holds.
    pub text: Vec<u8>,
    /// The table that this says.
    pub table: Table,
}

/// Reads the tables of the files of some paths, and puts them in the order of their first plans.
///
/// # Errors
///
/// `File` where one can't be read, and `NotATable`, each for the first such file of the line; the refusal of memory at any time.
pub(crate) fn tables_in_order<'a, W: World>(
    world: &W,
    alloc: Global,
    paths: &[&'a str],
) -> Result<Vec<TableFile<'a>>, CommandFailure>
    ensures tables { IfOk result (λ v.
        AreTables (W.files world.now) (map (λ s. s.now) paths.now) v.items) }
    ensures errors { IfErr result (IsReadEnd (W.files world.now) (map (λ s. s.now) paths.now)) }
{
    let mut tables = read_tables(world, alloc, paths)?;
    tables.sort_by_key(|file| file.table.header.first)?;
    Ok(tables)
}

/// Reads the tables of the files of some paths.
fn read_tables<'a, W: World>(
    world: &W,
    alloc: Global,
    paths: &[&'a str],
) -> Result<Vec<TableFile<'a>>, CommandFailure>
    ensures read { IfOk result (λ v.
        AreRead (W.files world.now) (map (λ s. s.now) paths.now) v.items) }
    ensures errors { IfErr result (IsReadEnd (W.files world.now) (map (λ s. s.now) paths.now)) }
{
    let mut tables = Vec::new(alloc);
    for path in paths {
        tables.push(read_table_of(world, alloc, path)?)?;
    }
    Ok(tables)
}

/// Reads the table of the file of a path.
///
/// # Errors
///
/// `File` where it can't be read, `NotATable` where it has no table; the refusal of memory at any time.
pub fn read_table_of<'a, W: World>(
    world: &W,
    alloc: Global,
    path: &'a str,
) -> Result<TableFile<'a>, CommandFailure>
    ensures path { IfOk result (λ f. f.path.now ≡ path.now) }
    ensures held { IfOk result (HoldsTable (W.files world.now)) }
    ensures errors { IfErr result (IsUntabled (W.files world.now) path.now) }
{
    let text = read_file(world, alloc, path)?;
    match read_table(alloc, &text) {
        Ok(table) => Ok(TableFile { path, text, table }),
        Err(ReadError::NotATable) => {
            Err(CommandFailure::NotATable(String::from_str(alloc, path)?))
        }
        Err(ReadError::OutOfMemory) => Err(CommandFailure::from(RunError::OutOfMemory)),
    }
}

/// The texts of some tables.
pub(crate) fn texts_of(alloc: Global, files: Vec<TableFile<'_>>) -> Result<Vec<Vec<u8>>, AllocError>
    ensures texts { IfOk result (λ v. v.items ≡ map text_of files.entry.items) }
{
    let texts: Vec<Vec<u8>> = files.into_iter().map(|file| file.text).collect(alloc)?;
    Ok(texts)
}
