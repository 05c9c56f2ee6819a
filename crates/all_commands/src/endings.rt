ghost use Rattle.std.specs.Prelude.{◌≡◌, ◌⊎◌, ◌++◌, IfErr, IfOk, None, OnErr, map};
ghost use Rattle.execution_file.specs.Views.{as_recorded};
ghost use Rattle.all_commands.specs.Asked.{AskedSearch, EndsAll, IsSearchEnd, SetSearch, keep_of};
ghost use Rattle.all_commands.specs.Status.{all_status};
ghost use Rattle.endings_table.specs.Text.{table_text};
ghost use Rattle.host_io.specs.Taken.{BeganText};
ghost use Rattle.program_files.specs.Failures.{HasFailed, IsUnprinted, failure_number};
ghost use Rattle.weak_commands.specs.Saved.{AreSaved};

use crate::searches::EndingsSearches;
use crate::status::all_status;
use crate::telling::tell_found;
use command_line::AllEndings;
use endings_finder::{EndingsObserver, EndingsSettings, FoundEndings};
use hunt_commands::{named_in, refused_for, settings_of, tell_decimals};
use program_files::{
    CommandFailure, ExitStatus, NamedBytes, Output, ProgramFiles, ProgressLine, World, read_program,
};
use std::alloc::Global;
use std::thread::Threads;
use weak_commands::keep;

/// Searches for all endings of a guest program, and prints the table of those that were found, and of whether it has others. An execution
/// of each is written to a file of a folder, where the line names one.
///
/// # Errors
///
/// `File` where one can't be read, and `NoSpurious`; `Hunt` for the settings and for the image, and `Naming` for bytes that can't be looked at;
/// then `Unwritten`, and `SinkFailed`; the refusal of memory at any time.
#[inline(never)]
pub fn all_command<W: World, S: EndingsSearches, O: Output, R: Threads + Sync>(
    threads: &R,
    alloc: Global,
    world: &mut W,
    searcher: &S,
    asked: &AllEndings<'_>,
    out: &mut O,
) -> Result<ExitStatus, CommandFailure>
    // All that was printed is the table of the search that the line asks for, of which the status is, and the executions that it keeps were
    // written to the files of the folder that the line names.
    ensures searches { IfOk result (λ status.
        (a : AskedSearch (W.files world.old) S.finds asked.now) ×
        (O.took out.new ≡ O.took out.old ++ table_text a.made.table) × O.is_out out.new ×
        (status ≡ all_status a.made.table) ×
        AreSaved W.was_given (keep_of asked.now) (map as_recorded a.made.executions)
        world.old world.new) }
    // Else nothing was printed, or a beginning of such a table.
    ensures begun { OnErr result ((O.took out.new ≡ O.took out.old) ⊎
        ((a : AskedSearch (W.files world.old) S.finds asked.now) ×
        BeganText (O.took out.old) (O.took out.new) (table_text a.made.table))) }
    // After a refusal for another cause than memory, the output and the files of the folder nothing was printed.
    ensures unprinted { IfErr result (λ f.
        IsUnprinted (failure_number f) (O.took out.old) (O.took out.new)) }
    // Where the line names no folder, no file was written.
    ensures unasked { asked.now.keep ≡ None → world.new ≡ world.old }
    ensures errors { IfErr result (EndsAll (W.files world.old)
        (W.wasnt_given world.new) asked.now (HasFailed O.failures O.is_stuck out.old out.new)) }
{
    let program = &asked.search.program;
    let mut progress = world.progress(program.progress, asked.nodes, 1, asked.seconds);
    let given = read_program(world, alloc, program)?;
    let found = search_given(threads, alloc, searcher, &given, asked, &mut progress, out)?;
    keep(world, alloc, asked.keep, &found.executions)?;
    out.hand_on()?;
    // What was asked for is out.
    tell_found(asked, &found, world);
    tell_decimals(&asked.search, &given, world);
    Ok(all_status(&found.table))
}

/// Searches in what the files gave, and prints the table.
fn search_given<S: EndingsSearches, P: ProgressLine, O: Output, R: Threads + Sync>(
    threads: &R,
    alloc: Global,
    searcher: &S,
    files: &ProgramFiles,
    asked: &AllEndings<'_>,
    progress: &mut P,
    out: &mut O,
) -> Result<FoundEndings, CommandFailure>
    ensures searches { IfOk result (λ f.
        (s : SetSearch S.finds asked.now files.now.image.items files.now.input.items) ×
        (O.took out.new ≡ O.took out.old ++ table_text s.table) ×
        (f.table ≡ s.table) × (f.executions.items ≡ s.executions)) }
    ensures begun { OnErr result ((O.took out.new ≡ O.took out.old) ⊎
        ((s : SetSearch S.finds asked.now files.now.image.items files.now.input.items) ×
        BeganText (O.took out.old) (O.took out.new) (table_text s.table))) }
    ensures unprinted { IfErr result (λ f.
        IsUnprinted (failure_number f) (O.took out.old) (O.took out.new)) }
    ensures errors { IfErr result (IsSearchEnd asked.now files.now.image.items
        (HasFailed O.failures O.is_stuck out.old out.new)) }
{
    let NamedBytes { bytes, fault } = named_in(alloc, &asked.search, files)?;
    let hunt = settings_of(alloc, &asked.search, &bytes, 0, 1, false)?;
    let settings = EndingsSettings {
        hunt,
        steps: asked.steps,
        nodes: asked.nodes,
        keeps: asked.keep.is_some(),
        fences: asked.fences,
    };
    match fault {
        Some(fault) => {
            let hunt = &settings.hunt;
            Err(refused_for(alloc, &files.image, hunt, fault))
        }
        None => {
            let mut looking = LookingOn { progress };
            let answer = searcher.search(threads, alloc, files, settings, &mut looking, out);
            looking.progress.end();
            match answer {
                Ok(found) => Ok(found),
                Err(error) => Err(CommandFailure::from(error)),
            }
        }
    }
}

/// Has who tells how far the command is look on at a search.
#[derive(Drop)]
struct LookingOn<'a, P> {
    progress: &'a mut P,
}

impl<P: ProgressLine> EndingsObserver for LookingOn<'_, P> {
    fn look(&mut self, nodes: u64, stores: u64, endings: u64) -> bool {
        self.progress.look(nodes, stores, endings)
    }
}
