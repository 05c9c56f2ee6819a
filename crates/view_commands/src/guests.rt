//! Pictures of runs.
ghost use Rattle.std.specs.Prelude.{◌≡◌, ◌⊎◌, ◌++◌, IfErr, IfOk, OnErr, OnOk, Some};
ghost use Rattle.host_io.specs.Taken.{BeganText};
ghost use Rattle.program_files.specs.Asked.{RefusedSetRun};
ghost use Rattle.program_files.specs.Failures.{HasFailed, IsUnprinted, failure_number};
ghost use Rattle.view_commands.specs.Drawings.{DrawsRun, IsBegunRun, IsRunEnd};
ghost use Rattle.view_commands.specs.Views.{HasRounds, IsNamed, SetDraw, drawn_text, ranges_of};

use crate::ranges::access_ranges;
use command_line::Draw;
use drawing::{View, draw_run};
use machine::{Observed, prepare};
use pages::Range;
use program_files::{
    CommandFailure, ExitStatus, NamedBytes, NamingFault, Output, ProgressLine, RunFiles,
    guest_files, named_bytes, settings_of,
};
use std::alloc::Global;
use std::sync::Wait;
use std::thread::Threads;

/// Runs a guest program, and prints a picture of what its run does to the bytes that the line names.
pub(crate) fn draw_guest<O: Output, P: ProgressLine, R: Threads + Wait + Sync>(
    threads: &R,
    alloc: Global,
    given: &RunFiles,
    asked: &Draw<'_>,
    progress: &mut P,
    out: &mut O,
) -> Result<ExitStatus, CommandFailure>
    ensures draws { IfOk result (DrawsRun asked.now given.now.program.image.items
        given.now.program.input.items
        given.now.plan.text.items given.now.plan.budget (O.took out.old) (O.took out.new)) }
    ensures begun { OnErr result ((O.took out.new ≡ O.took out.old) ⊎
        IsBegunRun asked.now given.now.program.image.items given.now.program.input.items
        given.now.plan.text.items given.now.plan.budget (O.took out.old) (O.took out.new)) }
    ensures unprinted { IfErr result (λ f.
        IsUnprinted (failure_number f) (O.took out.old) (O.took out.new)) }
    ensures errors { IfErr result (IsRunEnd asked.now given.now.program.image.items
        given.now.plan.text.items given.now.plan.budget
        (HasFailed O.failures O.is_stuck out.old out.new)) }
{
    let NamedBytes { bytes, fault } = named_bytes(
        alloc,
        &given.program.image,
        asked.run.program.pages,
        &asked.seen,
        &asked.objects,
    )?;
    match fault {
        Some(fault) => Err(refused_for(alloc, given, asked, fault)),
        None => {
            let ranges = access_ranges(alloc, &bytes)?;
            draw_ranges(threads, alloc, given, asked, &ranges, progress, out)?;
            Ok(ExitStatus::Done)
        }
    }
}

/// Runs the guest program, and prints a picture of what its run does to these ranges.
fn draw_ranges<O: Output, P: ProgressLine, R: Threads + Wait + Sync>(
    threads: &R,
    alloc: Global,
    given: &RunFiles,
    asked: &Draw<'_>,
    ranges: &[Range],
    progress: &mut P,
    out: &mut O,
) -> Result<(), CommandFailure>
    requires { ranges.now ≡ ranges_of asked.now given.now.program.image.items }
    ensures draws { OnOk result
        ((d : SetDraw asked.now given.now.program.image.items given.now.plan.text.items
        given.now.plan.budget) ×
        (O.took out.new ≡ O.took out.old ++ drawn_text given.now.program.input.items d)) }
    ensures begun { OnErr result ((O.took out.new ≡ O.took out.old) ⊎
        ((d : SetDraw asked.now given.now.program.image.items given.now.plan.text.items
        given.now.plan.budget) ×
        BeganText (O.took out.old) (O.took out.new) (drawn_text given.now.program.input.items d))) }
    ensures unprinted { IfErr result (λ f.
        IsUnprinted (failure_number f) (O.took out.old) (O.took out.new)) }
    ensures errors { IfErr result (RefusedSetRun asked.now.run.program given.now.plan.text.items
        given.now.plan.budget given.now.program.image.items
        (HasFailed O.failures O.is_stuck out.old out.new)) }
{
    let settings = settings_of(&asked.run.program, &given.plan);
    let mut observed = Observed { observer: progress };
    let answer = draw_run(
        threads,
        alloc,
        &guest_files(&given.program),
        &settings,
        &view_of(asked, ranges),
        &mut observed,
        out,
    );
    progress.end();
    given.plan.explain(alloc, settings.harts, answer)
}

/// What the line shows of a run: what it does to these ranges.
fn view_of<'a>(asked: &Draw<'_>, ranges: &'a [Range]) -> View<'a>
    ensures ranges { result.ranges.now ≡ ranges.now }
    ensures rounds { HasRounds asked.now result }
{
    View {
        ranges,
        from: asked.from.unwrap_or(0),
        to: asked.to.unwrap_or(u32::MAX),
    }
}

/// Why a run isn't drawn with bytes of which this is wrong: what refuses its settings, its image or its plan comes before.
fn refused_for(
    alloc: Global,
    given: &RunFiles,
    asked: &Draw<'_>,
    fault: NamingFault,
) -> CommandFailure
    requires { IsNamed asked.now given.now.program.image.items asked.now.run.program.pages
        (Some fault) }
    ensures { IsRunEnd asked.now given.now.program.image.items given.now.plan.text.items
        given.now.plan.budget ⊥ result }
{
    let settings = settings_of(&asked.run.program, &given.plan);
    let (image, input) = (&given.program.image, &given.program.input);
    let prepared = prepare(alloc, image, input, &settings);
    match given.plan.explain(alloc, settings.harts, prepared) {
        Ok(_machine) => CommandFailure::Naming(fault),
        Err(failure) => failure,
    }
}
