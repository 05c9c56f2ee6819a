//! Pictures of executions.
ghost use Rattle.std.specs.Prelude.{◌≡◌, ◌⊎◌, Err, IfErr, IfOk, None, OnErr, OnOk, true};
ghost use Rattle.execution_commands.specs.Verdicts.{IsVerdictText, is_allowed, verdict_status};
ghost use Rattle.execution_file.specs.Views.{as_recorded};
ghost use Rattle.host_io.specs.declared.error.RunError.TheVariants as refusals;
ghost use Rattle.program_files.specs.Failures.{HasFailed, IsCutOff, IsUnprinted, failure_number};
ghost use Rattle.view_commands.specs.Drawings.{BeginsFound, DrawsExecution, IsAskable, IsBegunExecution, IsCheckedEnd, IsExecutionEnd, IsUnasked, PrintsFound};
ghost use Rattle.view_commands.specs.Views.{IsNamed};
ghost use Rattle.program_files.specs.declared.exit_status.ExitStatus.TheVariants.{Done};

use crate::ranges::access_ranges;
use command_line::{Bytes, Draw};
use drawing::{ExecutionScene, object_touched, write_execution_picture};
use execution_commands::{is_allowed, put_verdict, read_execution_text};
use execution_scripts::{Checked, ExecutionFile, check_file, positions_sought};
use host_io::RunError;
use machine::Format;
use pages::OutOfMemory;
use picture::Site;
use program_files::{CommandFailure, ExitStatus, NamedBytes, Output, named_bytes};
use std::alloc::Global;

/// Prints a picture of the execution that a text says, or what is found of it, where RVWMO doesn't allow it.
pub(crate) fn draw_execution<O: Output>(
    alloc: Global,
    text: &[u8],
    asked: &Draw<'_>,
    out: &mut O,
) -> Result<ExitStatus, CommandFailure>
    ensures draws { IfOk result (DrawsExecution asked.now text.now (O.took out.old)
        (O.took out.new)) }
    ensures begun { OnErr result ((O.took out.new ≡ O.took out.old) ⊎
        IsBegunExecution asked.now text.now (O.took out.old) (O.took out.new)) }
    ensures unprinted { IfErr result (λ f.
        IsUnprinted (failure_number f) (O.took out.old) (O.took out.new)) }
    ensures errors { IfErr result (IsExecutionEnd asked.now text.now
        (HasFailed O.failures O.is_stuck out.old out.new)) }
{
    let file = read_execution_text(alloc, text)?;
    refuse_options(asked)?;
    let checked = check_file(alloc, &file, None)?;
    draw_checked(alloc, &file, &checked, asked, out)
}

/// Refuses what no execution has, and a number of workers as the questions about recordings do.
fn refuse_options(asked: &Draw<'_>) -> Result<(), CommandFailure>
    ensures askable { OnOk result (IsAskable asked.now) }
    ensures errors { IfErr result (IsUnasked asked.now) }
{
    let workers = asked.run.program.workers;
    if asked.from.is_some() || asked.to.is_some() {
        Err(CommandFailure::NoRounds)
    } else if workers < 1 || workers > 16 {
        Err(CommandFailure::from(RunError::WorkersOutOfRange))
    } else {
        Ok(())
    }
}

/// Prints a picture of an execution that was checked, or what was found of it, where RVWMO doesn't allow it.
fn draw_checked<O: Output>(
    alloc: Global,
    file: &ExecutionFile,
    checked: &Checked,
    asked: &Draw<'_>,
    out: &mut O,
) -> Result<ExitStatus, CommandFailure>
    ensures prints { IfOk result (λ _.
        PrintsFound (is_allowed checked.now.finding) asked.now (as_recorded file.now)
        (IsVerdictText checked.now) (O.took out.old) (O.took out.new)) }
    ensures status { IfOk result (λ status. status ≡ verdict_status checked.now.finding) }
    ensures begun { OnErr result ((O.took out.new ≡ O.took out.old) ⊎
        BeginsFound (is_allowed checked.now.finding)
        asked.now (as_recorded file.now) (IsVerdictText checked.now) (O.took out.old)
        (O.took out.new)) }
    ensures unprinted { IfErr result (λ f.
        IsUnprinted (failure_number f) (O.took out.old) (O.took out.new)) }
    ensures errors { IfErr result (IsCheckedEnd asked.now (as_recorded file.now)
        (is_allowed checked.now.finding)
        (HasFailed O.failures O.is_stuck out.old out.new)) }
{
    if is_allowed(checked) {
        draw_allowed(alloc, file, checked, asked, out)
    } else {
        Ok(put_verdict(alloc, checked, out)?)
    }
}

/// Prints a picture of an execution that is allowed.
fn draw_allowed<O: Output>(
    alloc: Global,
    file: &ExecutionFile,
    checked: &Checked,
    asked: &Draw<'_>,
    out: &mut O,
) -> Result<ExitStatus, CommandFailure>
    ensures sound { OnOk result (IsNamed asked.now file.now.image.items file.now.pages None) }
    ensures status { IfOk result (λ status. status ≡ Done) }
    ensures begun { OnErr result ((O.took out.new ≡ O.took out.old) ⊎
        IsNamed asked.now file.now.image.items file.now.pages None) }
    ensures unprinted { IfErr result (λ f.
        IsUnprinted (failure_number f) (O.took out.old) (O.took out.new)) }
    ensures errors { IfErr result (IsCheckedEnd asked.now (as_recorded file.now) true
        (HasFailed O.failures O.is_stuck out.old out.new)) }
{
    let NamedBytes { bytes, fault } = named_bytes(
        alloc,
        &file.image,
        file.pages,
        &asked.seen,
        &asked.objects,
    )?;
    match fault {
        Some(fault) => Err(CommandFailure::Naming(fault)),
        None => {
            put_picture(alloc, file, checked, &bytes, out)?;
            Ok(ExitStatus::Done)
        }
    }
}

/// Prints a picture of what an execution does to these bytes, and to all where there are none.
fn put_picture<O: Output>(
    alloc: Global,
    file: &ExecutionFile,
    checked: &Checked,
    bytes: &[Bytes],
    out: &mut O,
) -> Result<(), RunError>
    ensures errors { IfErr result (IsCutOff (HasFailed O.failures O.is_stuck out.old out.new)) }
    ensures memory { result ≡ Err refusals.OutOfMemory → O.took out.new ≡ O.took out.old }
{
    let positions = positions_of(alloc, checked, bytes)?;
    let sites = sites_of(alloc, file, checked, &positions)?;
    let scene = ExecutionScene {
        events: checked.execution.events(),
        order: &checked.order.0,
        positions: &positions,
        sites: &sites,
        harts: checked.execution.harts(),
    };
    write_execution_picture(alloc, &scene, out)
}

/// The positions in the order of the operations that touch these bytes; of all of them where there are none.
fn positions_of(
    alloc: Global,
    checked: &Checked,
    bytes: &[Bytes],
) -> Result<Vec<usize>, OutOfMemory> {
    if bytes.is_empty() {
        let all: Vec<usize> = (0..checked.order.0.len()).collect(alloc)?;
        return Ok(all);
    }
    let ranges = access_ranges(alloc, bytes)?;
    let events = checked.execution.events();
    positions_sought(alloc, events, &checked.order, &ranges, None, false)
}

/// What is known of the operations at these positions beside what they did: the pc of each one's instruction, and the object that it
/// touched.
fn sites_of<'a>(
    alloc: Global,
    file: &'a ExecutionFile,
    checked: &Checked,
    positions: &[usize],
) -> Result<Vec<Site<'a>>, OutOfMemory> {
    let format = if file.flat { Format::Flat } else { Format::Elf };
    let mut sites = Vec::new(alloc);
    for position in positions {
        let index = checked.order.0.get(*position).copied();
        let index = index.unwrap_or(usize::MAX);
        let object = match checked.execution.events().get(index) {
            Some(event) => object_touched(format, &file.image, event),
            None => None,
        };
        let pc = checked.sights.pcs.get(index).copied();
        sites.push(Site { pc, object })?;
    }
    Ok(sites)
}
