//! Executions that a search for missing fences shows, in files.
ghost use Rattle.std.specs.Prelude.{◌≡◌, IfErr, IfOk, None, OnOk, Some, map, option_map, string_bytes};
ghost use Rattle.execution_file.specs.Grammar.{execution};
ghost use Rattle.execution_file.specs.Views.{as_recorded};
ghost use Rattle.weak_commands.specs.Saved.{AreGiven, AreSaved, IsUnsaved, IsUnsavedIn, path_in};

use execution_scripts::{ExecutionFile, write_execution};
use host_io::{RunError, Sink};
use program_files::{CommandFailure, FileText, World};
use std::alloc::{AllocError, Global};

/// An execution, as the text of a file.
#[derive(Drop)]
struct ExecutionText<'a> {
    file: &'a ExecutionFile,
}

impl FileText for ExecutionText<'_> {
    ghost text = { λ t. execution.spelled (as_recorded t.file.now) };

    fn write_to<S: Sink>(&self, alloc: Global, out: &mut S) -> Result<(), RunError> {
        write_execution(alloc, self.file, out)
    }
}

/// Writes executions to files of a folder, if there is one to keep them in: the first one to `1.execution`, and so on. The folder is made
/// where there is none.
///
/// # Errors
///
/// `Unwritten` with the path of the first file that can't be made or written, and the refusal of memory.
pub fn keep<W: World>(
    world: &mut W,
    alloc: Global,
    folder: Option<&str>,
    executions: &[ExecutionFile],
) -> Result<(), CommandFailure>
    ensures saved { OnOk result (AreSaved W.was_given (option_map (λ s. s.now) folder.entry)
        (map as_recorded executions.now) world.old world.new) }
    ensures unasked { folder.entry ≡ None → world.new ≡ world.old }
    ensures errors { IfErr result (IsUnsavedIn (W.wasnt_given world.new)
        (option_map (λ s. s.now) folder.entry)) }
{
    match folder {
        Some(folder) => keep_in(world, alloc, folder, executions),
        None => Ok(()),
    }
}

/// Writes an execution to the file `found-N.execution` of a folder that has a name. The folder is made where there is none.
///
/// # Errors
///
/// `SinkFailed` where the file can't be made or written, and `OutOfMemory`.
pub(crate) fn keep_found<W: World>(
    world: &mut W,
    alloc: Global,
    folder: &str,
    number: usize,
    file: &ExecutionFile,
) -> Result<(), RunError> {
    let Ok(path) = format!(in alloc; "{folder}/found-{number}.execution") else {
        return Err(RunError::OutOfMemory);
    };
    world.make_folder(folder);
    world.overwrite(&path, &ExecutionText { file })
}

/// The same in a folder.
fn keep_in<W: World>(
    world: &mut W,
    alloc: Global,
    folder: &str,
    executions: &[ExecutionFile],
) -> Result<(), CommandFailure>
    ensures saved { OnOk result (AreSaved W.was_given (Some folder.now)
        (map as_recorded executions.now) world.old world.new) }
    ensures errors { IfErr result (IsUnsaved (W.wasnt_given world.new) folder.now) }
{
    if executions.is_empty() {
        return Ok(());
    }
    world.make_folder(folder);
    put_each(world, alloc, folder, executions)
}

/// Writes executions to files of a folder.
fn put_each<W: World>(
    world: &mut W,
    alloc: Global,
    folder: &str,
    executions: &[ExecutionFile],
) -> Result<(), CommandFailure>
    ensures given { OnOk result (AreGiven W.was_given folder.now 1 (map as_recorded executions.now)
        world.old world.new) }
    ensures errors { IfErr result (IsUnsaved (W.wasnt_given world.new) folder.now) }
{
    for index in 0..executions.len() {
        put(world, alloc, folder, index + 1, &executions[index])?;
    }
    Ok(())
}

/// Writes the execution of a number to its file.
fn put<W: World>(
    world: &mut W,
    alloc: Global,
    folder: &str,
    number: usize,
    file: &ExecutionFile,
) -> Result<(), CommandFailure>
    ensures given { OnOk result (W.was_given world.old world.new (path_in folder.now number)
        (execution.spelled (as_recorded file.now))) }
    ensures errors { IfErr result (IsUnsaved (W.wasnt_given world.new) folder.now) }
{
    let path = path_of(alloc, folder, number)?;
    if folder.is_empty() {
        // The path is one in the root folder, which nobody asked for.
        return Err(CommandFailure::Unwritten(path));
    }
    match world.overwrite(&path, &ExecutionText { file }) {
        Ok(()) => Ok(()),
        Err(RunError::OutOfMemory) => Err(CommandFailure::from(RunError::OutOfMemory)),
        Err(_) => Err(CommandFailure::Unwritten(path)),
    }
}

/// The path of the file of a number in a folder.
fn path_of(alloc: Global, folder: &str, number: usize) -> Result<String, AllocError>
    ensures { IfOk result (λ path. string_bytes path ≡ path_in folder.now number) }
{
    format!(in alloc; "{folder}/{number}.execution")
}
