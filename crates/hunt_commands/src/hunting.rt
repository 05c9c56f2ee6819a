ghost use Rattle.std.specs.Prelude.{◌≡◌, ◌⊎◌, ◌++◌, IfErr, IfOk, OnErr};
ghost use Rattle.host_io.specs.Taken.{BeganText};
ghost use Rattle.hunt_commands.specs.Asked.{AskedHunt, EndsHunt, IsHuntEnd, SetHunt, hunt_text};
ghost use Rattle.program_files.specs.Failures.{HasFailed, IsUnprinted, failure_number};
ghost use Rattle.hunt_commands.specs.Status.{hunt_status};

use crate::finds::Finds;
use crate::refusing::refused_for;
use crate::repeating::{tell_endings, tell_weak_running};
use crate::settings::{hunt_settings, named_in, tell_decimals};
use crate::status::hunt_status;
use crate::tabling::write_rows;
use crate::weak_hunts::WeakHunts;
use command_line::Hunt;
use plan_hunt::Tally;
use program_files::{
    CommandFailure, ExitStatus, NamedBytes, Output, ProgramFiles, ProgressLine, read_program,
};
use std::alloc::Global;
use std::sync::Wait;
use std::thread::Threads;

/// Runs a guest program by many plans or, in a weak hunt, makes many of its executions, and prints the table of their endings. Standard
/// error says for each ending the line that runs the program so.
///
/// # Errors
///
/// `File` where one can't be read, and `NoSpurious`; `Hunt` for the settings, then for the image, and for an execution that isn't confirmed;
/// then `Naming` for bytes that can't be looked at; `SinkFailed`; the refusal of memory at any time.
#[inline(never)]
pub fn hunt_command<W: WeakHunts + Sync, O: Output, R: Threads + Wait + Sync>(
    threads: &R,
    alloc: Global,
    world: &W,
    asked: &Hunt<'_>,
    out: &mut O,
) -> Result<ExitStatus, CommandFailure>
where
    W::Progress: Sync,
    // All that was printed is the table of the hunt that the line asks for, and the status is that of this table.
    ensures hunts { IfOk result (λ status. (a : AskedHunt (W.files world.now) W.hunts asked.now) ×
        (O.took out.new ≡ O.took out.old ++ hunt_text a.made) × O.is_out out.new ×
        (status ≡ hunt_status asked.now.fail_on a.made.rows)) }
    // Else nothing was printed, or a beginning of that table.
    ensures begun { OnErr result ((O.took out.new ≡ O.took out.old) ⊎
        ((a : AskedHunt (W.files world.now) W.hunts asked.now) ×
        BeganText (O.took out.old) (O.took out.new) (hunt_text a.made))) }
    // After a refusal for another cause than memory and the output nothing was printed.
    ensures unprinted { IfErr result (λ f.
        IsUnprinted (failure_number f) (O.took out.old) (O.took out.new)) }
    ensures errors { IfErr result (EndsHunt (W.files world.now) asked.now
        (HasFailed O.failures O.is_stuck out.old out.new)) }
{
    let program = &asked.search.program;
    let (told, workers) = (program.progress, program.workers);
    let progress = world.progress(told, asked.plans, workers, asked.seconds);
    let given = read_program(world, alloc, program)?;
    let answer = hunt_given(threads, alloc, world, &progress, &given, asked, out);
    progress.end();
    let tally = answer?;
    out.hand_on()?;
    // What was asked for is out.
    let _untold = tell_endings(threads, alloc, asked, &given, &tally.rows, world);
    tell_weak_running(asked, &tally.rows, world);
    tell_decimals(&asked.search, &given, world);
    Ok(hunt_status(asked.fail_on, &tally.rows))
}

/// Hunts in what the files gave, and prints the table. Answers it.
fn hunt_given<W: WeakHunts + Sync, O: Output, R: Threads + Wait + Sync>(
    threads: &R,
    alloc: Global,
    world: &W,
    progress: &W::Progress,
    files: &ProgramFiles,
    asked: &Hunt<'_>,
    out: &mut O,
) -> Result<Tally, CommandFailure>
where
    W::Progress: Sync,
    ensures hunts { IfOk result (λ t.
        (h : SetHunt W.hunts asked.now files.now.image.items files.now.input.items) ×
        (O.took out.new ≡ O.took out.old ++ hunt_text h) × (t.rows.items ≡ h.rows)) }
    ensures begun { OnErr result ((O.took out.new ≡ O.took out.old) ⊎
        ((h : SetHunt W.hunts asked.now files.now.image.items files.now.input.items) ×
        BeganText (O.took out.old) (O.took out.new) (hunt_text h))) }
    ensures unprinted { IfErr result (λ f.
        IsUnprinted (failure_number f) (O.took out.old) (O.took out.new)) }
    ensures errors { IfErr result (IsHuntEnd asked.now files.now.image.items
        (HasFailed O.failures O.is_stuck out.old out.new)) }
{
    let finds = Finds::new(alloc, asked, progress, world)?;
    let NamedBytes { bytes, fault } = named_in(alloc, &asked.search, files)?;
    let settings = hunt_settings(alloc, asked, &bytes, &files.image)?;
    match fault {
        Some(fault) => Err(refused_for(alloc, &files.image, &settings, fault)),
        None => {
            let answer = write_rows(threads, alloc, files, &settings, asked.steps, &finds, out);
            Ok(answer?)
        }
    }
}
