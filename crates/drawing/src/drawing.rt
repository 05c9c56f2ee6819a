ghost use Rattle.std.specs.Prelude.{◌≡◌, ◌⊎◌, ◌≤◌, Err, IfErr, IfOk, OnOk};
ghost use Rattle.host_io.specs.declared.error.RunError.TheVariants as refusals;
ghost use Rattle.emulation.specs.Visited.{HasSeenRun};
ghost use Rattle.machine.specs.Machine.{Running};
ghost use Rattle.machine.specs.Untraced.{IsUntraced, Untraced};
ghost use Rattle.machine.specs.Walks.{HasSeenAll};
ghost use Rattle.round_schedule.specs.Bounds.{AreWorkers};
ghost use Rattle.round_planner.specs.Settings.{IsReason, RefusedInOrder, settings_fault};
ghost use Rattle.drawing.specs.Drawn.{IsPictureOfRun, before_drawn, last_drawn, picture_of};
ghost use Rattle.drawing.specs.DrawnRounds.{HasDrawnAll};
ghost use Rattle.host_io.specs.Writes.{IsFaultOr, WritesAnswer};

use crate::drawn_rounds::{Drawing, DrawnRounds};
use crate::sites::sites_of;
use host_io::{RunError, Sink};
use machine::{GuestFiles, Machine, Settings, Visitor, prepare};
use picture::{Scene, View, write_picture};
use round_schedule::MOST_HARTS;
use std::alloc::Global;
use std::sync::Wait;
use std::thread::Threads;

/// Runs a guest program for a number of rounds, and writes a picture of what the view shows of the run. The visitor is shown
/// the machine after each round in which a hart runs. That it has enough ends no run.
///
/// # Errors
///
/// The refusals of the settings, then of the image, then of the plan; `OutOfMemory`; `SinkFailed`. Nothing is written
/// before all rounds are done.
pub fn draw_run<S: Sink, V: Visitor, R: Threads + Wait + Sync>(
    rt: &R,
    alloc: Global,
    files: &GuestFiles<'_>,
    settings: &Settings<'_>,
    view: &View<'_>,
    visitor: &mut V,
    out: &mut S,
) -> Result<(), RunError>
    requires known { (start : Untraced) →
        V.knows visitor.old visitor.old start settings.now.rounds 0 }
    // The sink takes the picture of the run that the definitions name.
    ensures writes { WritesAnswer S.took S.failures
        (λ _. IsPictureOfRun settings.now files.now.image.now files.now.input.now view.now)
        (IsFaultOr (settings_fault settings.now) (IsReason settings.now files.now.image.now))
        refusals.OutOfMemory refusals.SinkFailed out.old out.new result }
    // Where memory is refused, it took nothing.
    ensures memory { result ≡ Err refusals.OutOfMemory → S.took out.new ≡ S.took out.old }
    // Unless the visitor knows all rounds of that run, the sink is as it was.
    ensures waits { (out.new ≡ out.old) ⊎ HasSeenRun V.knows visitor.old visitor.new settings.now
        files.now.image.now files.now.input.now }
    // Numbers out of range are refused first, then an image, and then a plan.
    ensures in_order { RefusedInOrder settings.now files.now.image.now result }
{
    let mut machine = prepare(alloc, files.image, files.input, settings)?;
    let drawn = draw_rounds(
        rt,
        alloc,
        files.image,
        &mut machine,
        settings,
        view,
        visitor,
        out,
    );
    drop(machine);
    drawn
}

/// Runs a machine on for the rounds of the settings, and writes the picture of its run.
fn draw_rounds<S: Sink, V: Visitor, R: Threads + Wait + Sync>(
    rt: &R,
    alloc: Global,
    image: &[u8],
    machine: &mut Machine,
    settings: &Settings<'_>,
    view: &View<'_>,
    visitor: &mut V,
    out: &mut S,
) -> Result<(), RunError>
    requires workers { AreWorkers settings.now.workers }
    requires few_harts { machine.old.plan.harts ≤ MOST_HARTS }
    requires opened { machine.old.state.rounds ≡ 0 }
    requires known { (start : Untraced) →
        V.knows visitor.old visitor.old start settings.now.rounds 0 }
    ensures writes { WritesAnswer S.took S.failures
        (λ _ text. text ≡ picture_of settings.now image.now machine.old view.now)
        (λ e. e ≡ refusals.OutOfMemory) refusals.OutOfMemory refusals.SinkFailed out.old out.new
        result }
    ensures memory { result ≡ Err refusals.OutOfMemory → S.took out.new ≡ S.took out.old }
    ensures waits { (out.new ≡ out.old) ⊎ ((u : Untraced) × IsUntraced machine.old u ×
        HasSeenAll V.knows visitor.old visitor.new u settings.now.rounds) }
{
    let mut drawn = run_drawn(rt, alloc, machine, settings, view, visitor)?;
    let result = draw_machine(rt, alloc, image, machine, &mut drawn, settings, view, out);
    drop(drawn);
    result
}

/// Does the rounds of the settings, shows them to the visitor, and gives what is drawn of them beside the trace.
fn run_drawn<V: Visitor, R: Threads + Wait + Sync>(
    rt: &R,
    alloc: Global,
    machine: &mut Machine,
    settings: &Settings<'_>,
    view: &View<'_>,
    visitor: &mut V,
) -> Result<DrawnRounds, RunError>
    requires workers { AreWorkers settings.now.workers }
    requires opened { machine.old.state.rounds ≡ 0 }
    requires known { (start : Untraced) →
        V.knows visitor.old visitor.old start settings.now.rounds 0 }
    ensures drawn { IfOk result (λ d. HasDrawnAll settings.now.rounds
        (before_drawn settings.now.rounds view.now) (last_drawn settings.now.rounds view.now)
        machine.old machine.new d) }
    ensures seen { OnOk result ((u : Untraced) × IsUntraced machine.old u ×
        HasSeenAll V.knows visitor.old visitor.new u settings.now.rounds) }
    ensures refused { IfErr result (λ e. e ≡ refusals.OutOfMemory) }
{
    let last = last_drawn(settings.rounds, view);
    let before = before_drawn(settings.rounds, view);
    let mut drawn = DrawnRounds::of(alloc, machine, before, last)?;
    let mut drawing = Drawing {
        visitor,
        drawn: &mut drawn,
    };
    machine.run_visited(rt, settings.rounds, settings.workers, &mut drawing)?;
    Ok(drawn)
}

/// The last round that is drawn.
fn last_drawn(rounds: u32, view: &View<'_>) -> u32
    ensures last { result ≡ last_drawn rounds view.now }
    ensures few { result ≤ rounds }
{
    view.to.min(rounds)
}

/// How many rounds come before the first one that is drawn.
fn before_drawn(rounds: u32, view: &View<'_>) -> u32
    ensures before { result ≡ before_drawn rounds view.now }
    ensures few { result ≤ rounds }
{
    view.from.saturating_sub(1).min(last_drawn(rounds, view))
}

/// Writes the picture of the run of a machine that has done all its rounds, of which this was kept.
fn draw_machine<S: Sink, R: Threads + Wait + Sync>(
    rt: &R,
    alloc: Global,
    image: &[u8],
    machine: &Machine,
    drawn: &mut DrawnRounds,
    settings: &Settings<'_>,
    view: &View<'_>,
    out: &mut S,
) -> Result<(), RunError>
    requires workers { AreWorkers settings.now.workers }
    requires few_harts { machine.now.plan.harts ≤ MOST_HARTS }
    requires run { (m : Running) × HasDrawnAll settings.now.rounds
        (before_drawn settings.now.rounds view.now) (last_drawn settings.now.rounds view.now) m
        machine.now drawn.old }
    ensures writes { (m : Running) → HasDrawnAll settings.now.rounds
        (before_drawn settings.now.rounds view.now) (last_drawn settings.now.rounds view.now) m
        machine.now drawn.old →
        WritesAnswer S.took S.failures
        (λ _ text. text ≡ picture_of settings.now image.now m view.now)
        (λ e. e ≡ refusals.OutOfMemory) refusals.OutOfMemory refusals.SinkFailed out.old out.new
        result }
    ensures memory { result ≡ Err refusals.OutOfMemory → S.took out.new ≡ S.took out.old }
{
    let sites = sites_of(
        rt,
        alloc,
        image,
        &mut drawn.start,
        machine.trace(),
        settings,
        view,
    )?;
    let scene = Scene {
        trace: machine.trace(),
        starts: drawn.harts_before(machine),
        ends: drawn.harts_after(machine),
        sites: &sites,
    };
    write_picture(alloc, &scene, view, out)
}
