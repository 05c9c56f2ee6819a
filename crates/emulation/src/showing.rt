ghost use Rattle.std.specs.Prelude.{◌≡◌, ◌⊎◌};
ghost use Rattle.host_io.specs.Taken.{WritesText};
ghost use Rattle.host_io.specs.declared.error.RunError.TheVariants as refusals;
ghost use Rattle.machine.specs.Machine.{Running, after_rounds};
ghost use Rattle.round_planner.specs.Settings.{IsReason, RefusedInOrder, settings_fault};
ghost use Rattle.emulation.specs.Reports.{IsReport};
ghost use Rattle.emulation.specs.Showing.{IsShown, end_of, shown_text};
ghost use Rattle.emulation.specs.Visited.{HasSeenRun};
ghost use Rattle.machine.specs.Untraced.{IsUntraced, Untraced};
ghost use Rattle.machine.specs.Walks.{HasSeenAll};
ghost use Rattle.report.specs.Report.{report_of};
ghost use Rattle.round_schedule.specs.Bounds.{AreWorkers};
ghost use Rattle.host_io.specs.Writes.{IsFaultOr, WritesAnswer};

use crate::reporting::{report_on, untraced_state_of};
use crate::run_end::{RunEnd, end_of};
use host_io::{RunError, Sink, put_all};
use machine::{GuestFiles, Machine, Settings, UntracedMachine, Visitor, prepare, prepare_untraced};
use report::{write_summary, write_untraced};
use std::alloc::Global;
use std::sync::Wait;
use std::thread::Threads;

/// What is shown of a run that keeps no trace.
#[derive(Clone, Copy)]
pub enum ShownState {
    /// The report without its events.
    State,
    /// The report's lines of the rounds and the harts, and how many bytes the guest put out.
    Harts,
    /// The bytes that the guest put out, as they are.
    Output,
}

/// Runs a guest program for a number of rounds without a trace, and writes what is shown of the state after them. It answers
/// how its harts have ended. The visitor is shown the machine after each round in which a hart runs. That it has enough ends no run.
///
/// # Errors
///
/// The refusals of the settings, then of the image, then of the plan; `OutOfMemory`; `SinkFailed`. Nothing is written
/// before all rounds are done.
pub fn show_run<S: Sink, V: Visitor, R: Threads + Wait + Sync>(
    rt: &R,
    alloc: Global,
    files: &GuestFiles<'_>,
    settings: &Settings<'_>,
    shown: ShownState,
    visitor: &mut V,
    out: &mut S,
) -> Result<RunEnd, RunError>
    requires known { (start : Untraced) →
        V.knows visitor.old visitor.old start settings.now.rounds 0 }
    // The sink takes what is shown of the run that the definitions name, and the answer is that of its harts.
    ensures writes { WritesAnswer S.took S.failures
        (IsShown shown settings.now files.now.image.now files.now.input.now)
        (IsFaultOr (settings_fault settings.now) (IsReason settings.now files.now.image.now))
        refusals.OutOfMemory refusals.SinkFailed out.old out.new result }
    // Unless the visitor knows all rounds of that run, the sink is as it was.
    ensures waits { (out.new ≡ out.old) ⊎ HasSeenRun V.knows visitor.old visitor.new settings.now
        files.now.image.now files.now.input.now }
    // Numbers out of range are refused first, then an image, and then a plan.
    ensures in_order { RefusedInOrder settings.now files.now.image.now result }
{
    let mut machine = prepare_untraced(alloc, files.image, files.input, settings)?;
    let answer = show_rounds(rt, alloc, &mut machine, settings, shown, visitor, out);
    drop(machine);
    answer
}

/// Runs a machine on for the rounds of the settings, and writes what is shown of the state after them. It answers how its harts have
/// ended.
fn show_rounds<S: Sink, V: Visitor, R: Threads + Wait + Sync>(
    rt: &R,
    alloc: Global,
    machine: &mut UntracedMachine,
    settings: &Settings<'_>,
    shown: ShownState,
    visitor: &mut V,
    out: &mut S,
) -> Result<RunEnd, RunError>
    requires workers { AreWorkers settings.now.workers }
    requires opened { machine.old.rounds ≡ 0 }
    requires known { (start : Untraced) →
        V.knows visitor.old visitor.old start settings.now.rounds 0 }
    ensures writes { (m : Running) → IsUntraced m machine.old → WritesAnswer S.took S.failures
        (λ end text. (text ≡ shown_text shown (after_rounds settings.now.rounds m).state) ×
        (end ≡ end_of (after_rounds settings.now.rounds m).state.harts))
        (λ e. e ≡ refusals.OutOfMemory) refusals.OutOfMemory refusals.SinkFailed out.old out.new
        result }
    ensures waits { (out.new ≡ out.old) ⊎
        HasSeenAll V.knows visitor.old visitor.new machine.old settings.now.rounds }
{
    machine.run_visited(rt, settings.rounds, settings.workers, visitor)?;
    write_shown(alloc, machine, shown, out)?;
    Ok(end_of(machine.harts()))
}

/// Runs a guest program for a number of rounds, and writes the report of the state after them. It answers how its harts have
/// ended. The visitor is shown the machine after each round in which a hart runs. That it has enough ends no run.
///
/// # Errors
///
/// As `show_run`.
pub fn report_run<S: Sink, V: Visitor, R: Threads + Wait + Sync>(
    rt: &R,
    alloc: Global,
    files: &GuestFiles<'_>,
    settings: &Settings<'_>,
    visitor: &mut V,
    out: &mut S,
) -> Result<RunEnd, RunError>
    requires known { (start : Untraced) →
        V.knows visitor.old visitor.old start settings.now.rounds 0 }
    // The sink takes the report of the run that the definitions name, and the answer is that of its harts.
    ensures writes { WritesAnswer S.took S.failures
        (IsReport settings.now files.now.image.now files.now.input.now)
        (IsFaultOr (settings_fault settings.now) (IsReason settings.now files.now.image.now))
        refusals.OutOfMemory refusals.SinkFailed out.old out.new result }
    // Unless the visitor knows all rounds of that run, the sink is as it was.
    ensures waits { (out.new ≡ out.old) ⊎ HasSeenRun V.knows visitor.old visitor.new settings.now
        files.now.image.now files.now.input.now }
    // Numbers out of range are refused first, then an image, and then a plan.
    ensures in_order { RefusedInOrder settings.now files.now.image.now result }
{
    let mut machine = prepare(alloc, files.image, files.input, settings)?;
    let answer = report_rounds(rt, alloc, &mut machine, settings, visitor, out);
    drop(machine);
    answer
}

/// Runs a machine on for the rounds of the settings, and writes the report of the state after them. It answers how its harts have
/// ended.
fn report_rounds<S: Sink, V: Visitor, R: Threads + Wait + Sync>(
    rt: &R,
    alloc: Global,
    machine: &mut Machine,
    settings: &Settings<'_>,
    visitor: &mut V,
    out: &mut S,
) -> Result<RunEnd, RunError>
    requires workers { AreWorkers settings.now.workers }
    requires opened { machine.old.state.rounds ≡ 0 }
    requires known { (start : Untraced) →
        V.knows visitor.old visitor.old start settings.now.rounds 0 }
    ensures writes { WritesAnswer S.took S.failures
        (λ end text. (text ≡ report_of (after_rounds settings.now.rounds machine.old).state) ×
        (end ≡ end_of (after_rounds settings.now.rounds machine.old).state.harts))
        (λ e. e ≡ refusals.OutOfMemory) refusals.OutOfMemory refusals.SinkFailed out.old out.new
        result }
    ensures waits { (out.new ≡ out.old) ⊎ ((u : Untraced) × IsUntraced machine.old u ×
        HasSeenAll V.knows visitor.old visitor.new u settings.now.rounds) }
{
    machine.run_visited(rt, settings.rounds, settings.workers, visitor)?;
    report_on(rt, settings.workers, alloc, machine, out)?;
    Ok(end_of(machine.harts()))
}

/// Writes what is shown of a machine.
fn write_shown<S: Sink>(
    alloc: Global,
    machine: &UntracedMachine,
    shown: ShownState,
    out: &mut S,
) -> Result<(), RunError>
    ensures { (m : Running) → IsUntraced m machine.now → WritesText (shown_text shown m.state)
        (S.took out.old) (S.failures out.old) result (S.took out.new) (S.failures out.new) }
{
    match shown {
        ShownState::State => write_untraced(alloc, &untraced_state_of(machine), out),
        ShownState::Harts => write_summary(alloc, &untraced_state_of(machine), out),
        ShownState::Output => put_all(out, machine.output()),
    }
}
