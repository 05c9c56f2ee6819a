ghost use Rattle.std.specs.Prelude.{◌≡◌, ◌⊎◌, ◌++◌, IfErr, IfOk, None, OnErr, Some, false, map, option_map};
ghost use Rattle.execution_file.specs.Views.{as_recorded};
ghost use Rattle.weak_commands.specs.Asked.{AskedSearch, EndsFences, HasSearchEnd, IsSearchEnd, IsWorldEnd, SetSearch, keep_of};
ghost use Rattle.weak_commands.specs.Saved.{AreSaved};
ghost use Rattle.weak_commands.specs.Status.{fences_status};
ghost use Rattle.fence_table.specs.Text.{fences_text};
ghost use Rattle.host_io.specs.Taken.{BeganText};
ghost use Rattle.hunt_commands.specs.Settings.{HasNumbers};
ghost use Rattle.program_files.specs.Asked.{IsInputOf};
ghost use Rattle.program_files.specs.Failures.{HasFailed, IsFileFailure};

use crate::finds::FenceFinds;
use crate::keeping::keep;
use crate::places::fences_of;
use crate::searches::FenceSearches;
use crate::status::fences_status;
use crate::telling::{tell_compared, tell_missing, tell_running};
use command_line::Fences;
use fence_finder::{FenceSettings, FoundFences};
use fence_table::Accepted;
use hunt_commands::{named_in, refused_for, settings_of, tell_decimals};
use hunter::HuntSettings;
use plan_hunt::Until;
use program_files::{
    CommandFailure, ExitStatus, NamedBytes, Output, ProgramFiles, ProgressLine, World, read_file,
    read_program,
};
use std::alloc::Global;
use std::sync::Wait;
use std::thread::Threads;

/// Makes executions of a guest program, and prints at which places fences are missing, as some of these executions show. Those are written
/// to files of a folder, where the line names one. Standard error says for each missing fence the line that writes its execution.
///
/// # Errors
///
/// `File` where one can't be read, and `NoSpurious`; `Accept` for the list of places that are accepted; `Hunt` for the settings, then `NoPlace`
/// for the first word that names no instruction of an image that is taken; `Hunt` for the image, and for an execution that isn't confirmed, and
/// `Naming` for bytes that can't be looked at; then `Unwritten`, and `SinkFailed`; the refusal of memory at any time.
#[inline(never)]
pub fn fences_command<W: FenceSearches + Copy, O: Output, R: Threads + Wait + Sync>(
    threads: &R,
    alloc: Global,
    world: &mut W,
    asked: &Fences<'_>,
    out: &mut O,
) -> Result<ExitStatus, CommandFailure>
    // All that was printed is the table of the search that the line asks for, of which the status is, and the executions that it keeps were
    // written to the files of the folder that the line names.
    ensures searches { IfOk result (λ status.
        (a : AskedSearch (W.files world.old) W.fences asked.now) ×
        (O.took out.new ≡ O.took out.old ++ fences_text a.made.table) × O.is_out out.new ×
        (status ≡ fences_status asked.now.fail_on a.made.table) ×
        AreSaved W.was_given (keep_of asked.now) (map as_recorded a.made.executions)
        world.old world.new) }
    // Else nothing was printed, or a beginning of such a table.
    ensures begun { OnErr result ((O.took out.new ≡ O.took out.old) ⊎
        ((a : AskedSearch (W.files world.old) W.fences asked.now) ×
        BeganText (O.took out.old) (O.took out.new) (fences_text a.made.table))) }
    // Where the line names no folder, no file was written.
    ensures unasked { asked.now.keep ≡ None → world.new ≡ world.old }
    ensures errors { IfErr result (EndsFences (W.files world.old)
        (W.wasnt_given world.new) asked.now (HasFailed O.failures O.is_stuck out.old out.new)) }
{
    let program = &asked.search.program;
    let (told, workers) = (program.progress, program.workers);
    let progress = world.progress(told, asked.plans, workers, asked.seconds);
    let given = read_program(world, alloc, program)?;
    let list = read_list(world, alloc, asked.accept)?;
    let found = search_given(threads, alloc, world, &progress, &given, &list, asked, out)?;
    keep(world, alloc, asked.keep, &found.executions)?;
    out.hand_on()?;
    // What was asked for is out.
    let _untold = tell_missing(alloc, asked, &found, world);
    tell_running(asked, &found.table, world);
    tell_compared(found.compared, world);
    tell_decimals(&asked.search, &given, world);
    Ok(fences_status(asked.fail_on, &found.table))
}

/// The text of the list of places that are accepted; without a file it is empty.
fn read_list<W: World>(
    world: &W,
    alloc: Global,
    path: Option<&str>,
) -> Result<Vec<u8>, CommandFailure>
    ensures list { IfOk result (λ bytes.
        IsInputOf (W.files world.now) (option_map (λ s. s.now) path.entry) bytes.items) }
    ensures errors { IfErr result (IsFileFailure (W.files world.now)
        (λ named. option_map (λ s. s.now) path.entry ≡ Some named) ⊥) }
{
    match path {
        Some(path) => read_file(world, alloc, path),
        None => Ok(Vec::new(alloc)),
    }
}

/// The same settings of a search that is over where the line says.
fn with_end(asked: &Fences<'_>, settings: HuntSettings) -> HuntSettings
    ensures end { HasSearchEnd asked.now result }
    ensures numbers { HasNumbers asked.now.search asked.now.first asked.now.plans false settings →
        HasNumbers asked.now.search asked.now.first asked.now.plans false result }
    ensures ranges { result.header.ranges ≡ settings.header.ranges }
{
    let mut settings = settings;
    settings.until = if asked.until_missing {
        Until::Bad
    } else {
        Until::Done
    };
    settings.is_timed = asked.seconds.is_some();
    settings
}

/// Searches in what the files gave, and prints the table.
fn search_given<W: FenceSearches + Copy, O: Output, R: Threads + Wait + Sync>(
    threads: &R,
    alloc: Global,
    world: &W,
    progress: &W::Progress,
    files: &ProgramFiles,
    list: &[u8],
    asked: &Fences<'_>,
    out: &mut O,
) -> Result<FoundFences, CommandFailure>
    ensures searches { IfOk result (λ f.
        (s : SetSearch W.fences asked.now list.now files.now.image.items
        files.now.input.items) ×
        (O.took out.new ≡ O.took out.old ++ fences_text s.table) × (f.table ≡ s.table) ×
        (f.executions.items ≡ s.executions)) }
    ensures begun { OnErr result ((O.took out.new ≡ O.took out.old) ⊎
        ((s : SetSearch W.fences asked.now list.now files.now.image.items
        files.now.input.items) ×
        BeganText (O.took out.old) (O.took out.new) (fences_text s.table))) }
    ensures errors { IfErr result (IsSearchEnd asked.now list.now files.now.image.items
        (HasFailed O.failures O.is_stuck out.old out.new)) }
{
    let accepted = Accepted::read(alloc, list)?;
    let NamedBytes { bytes, fault } = named_in(alloc, &asked.search, files)?;
    let hunt = settings_of(
        alloc,
        &asked.search,
        &bytes,
        asked.first,
        asked.plans,
        false,
    )?;
    let hunt = with_end(asked, hunt);
    let assumed = fences_of(alloc, &asked.as_if_fence, &hunt, &files.image, world)?;
    let settings = FenceSettings {
        hunt,
        steps: asked.steps,
        assumed,
        accepted,
        keeps: asked.keep.is_some(),
    };
    match fault {
        Some(fault) => {
            let hunt = &settings.hunt;
            Err(refused_for(alloc, &files.image, hunt, fault))
        }
        None => {
            let finds = FenceFinds::new(alloc, asked, progress, world)?;
            let answer = world.search_fences(threads, alloc, files, settings, &finds, out);
            progress.end();
            Ok(answer?)
        }
    }
}
