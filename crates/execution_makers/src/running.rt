ghost use Rattle.std.specs.Prelude.{◌≡◌, ◌≤◌, IfErr, IfOk, None, OnOk, map};
ghost use Rattle.host_io.specs.declared.error.RunError.TheVariants as refusals;
ghost use Rattle.round_planner.specs.Quotas.{Planned};
ghost use Rattle.machine.specs.Machine.{after_rounds};
ghost use Rattle.round_planner.specs.Settings.{IsPlan, IsReason, RefusedInOrder, settings_fault};
ghost use Rattle.machine.specs.Runs.{after_run};
ghost use Rattle.execution_file.specs.Views.{as_recorded, hart_view};
ghost use Rattle.execution_file.specs.Deeds.{deeds};
ghost use Rattle.execution_makers.specs.RunFiles.{IsFileOf, IsFileWith, is_flat};

use crate::paces::Paces;
use elf_loader::Image;
use execution_file::{ExecutionFile, HartDeeds, Turn, deeds, turns_of};
use execution_scripts::{Follower, Halt, add_call, forget_plain};
use host_io::RunError;
use machine::{Format, Machine, Observer, Settings, load, prepare};
use memory_order::memory_order;
use pages::{MOST_PAGES, OutOfMemory};
use round_schedule::{Event, MOST_WORKERS};
use std::alloc::Global;
use std::sync::Wait;
use std::thread::Threads;

/// Runs a guest program for a number of rounds, and gives the run as an execution, in the order by rounds: of the same image and input,
/// in which each hart does and reads what it did and read in the run.
///
/// # Errors
///
/// The refusals of the settings, then of the image, then of the plan; `OutOfMemory`.
pub fn execution_of_run<O: Observer, R: Threads + Wait + Sync>(
    rt: &R,
    alloc: Global,
    image: &[u8],
    input: &[u8],
    settings: &Settings<'_>,
    observer: &mut O,
) -> Result<ExecutionFile, RunError>
    ensures file { IfOk result (λ f. (plan : Planned) × IsPlan settings.now plan ×
        IsFileOf settings.now image.now input.now (after_run settings.now image.now input.now plan)
        (as_recorded f)) }
    // Numbers out of range are refused first, then an image, and then a plan.
    ensures in_order { RefusedInOrder settings.now image.now result }
    // What is refused then is for a reason that stands.
    ensures errors { settings_fault settings.now ≡ None →
        IfErr result (λ e. IsReason settings.now image.now e) }
{
    let mut machine = prepare(alloc, image, input, settings)?;
    let ran = run_of(rt, alloc, &mut machine, settings, observer);
    drop(machine);
    file_of(alloc, image, input, settings, ran?)
}

/// What is kept of a run.
#[derive(Drop)]
struct Ran {
    /// The numbers of its rounds.
    rounds: Vec<u32>,
    /// For each of them, how many instructions each hart had done.
    done: Vec<u64>,
    /// What the harts did.
    parts: Vec<HartDeeds>,
    /// Its order by rounds.
    order: Vec<Turn>,
}

/// Runs a machine. Answers what is kept of the run.
fn run_of<O: Observer, R: Threads + Wait + Sync>(
    rt: &R,
    alloc: Global,
    machine: &mut Machine,
    settings: &Settings<'_>,
    observer: &mut O,
) -> Result<Ran, RunError>
    requires fresh { machine.old.state.rounds ≡ 0 }
    requires some_workers { 1 ≤ settings.now.workers }
    requires few_workers { settings.now.workers ≤ MOST_WORKERS }
    ensures parts { IfOk result (λ ran. let m = after_rounds settings.now.rounds machine.old in
        map hart_view ran.parts.items ≡ deeds m.state.harts m.state.trace) }
    ensures errors { IfErr result (λ e. e ≡ refusals.OutOfMemory) }
{
    let (rounds, done) = paces_of(rt, alloc, machine, settings, observer)?;
    let (parts, order) = deeds_of(alloc, machine)?;
    Ok(Ran {
        rounds,
        done,
        parts,
        order,
    })
}

/// Runs a machine. Answers the numbers of the rounds, and for each how many instructions each hart had done.
fn paces_of<O: Observer, R: Threads + Wait + Sync>(
    rt: &R,
    alloc: Global,
    machine: &mut Machine,
    settings: &Settings<'_>,
    observer: &mut O,
) -> Result<(Vec<u32>, Vec<u64>), RunError>
    requires fresh { machine.old.state.rounds ≡ 0 }
    requires some_workers { 1 ≤ settings.now.workers }
    requires few_workers { settings.now.workers ≤ MOST_WORKERS }
    ensures ran { OnOk result (machine.new ≡ after_rounds settings.now.rounds machine.old) }
    ensures errors { IfErr result (λ e. e ≡ refusals.OutOfMemory) }
{
    let mut paces = Paces::new(alloc, observer);
    let ended = machine.run_observed(rt, settings.rounds, settings.workers, &mut paces);
    let Paces {
        observer: _,
        rounds,
        done,
        is_short,
    } = paces;
    ended?;
    if is_short {
        return Err(RunError::OutOfMemory);
    }
    Ok((rounds, done))
}

/// What the harts of a machine did, and the order by rounds of what they did.
fn deeds_of(alloc: Global, machine: &Machine) -> Result<(Vec<HartDeeds>, Vec<Turn>), OutOfMemory>
    ensures { IfOk result (λ d. map hart_view d.0.items
        ≡ deeds machine.now.state.harts machine.now.state.trace) }
{
    let events = machine.trace().to_vec(alloc)?;
    let order = order_by_rounds(alloc, machine, &events)?;
    let parts = deeds(alloc, machine.harts(), &events)?;
    Ok((parts, order))
}

/// The order by rounds of a machine's events.
fn order_by_rounds(
    alloc: Global,
    machine: &Machine,
    events: &[Event],
) -> Result<Vec<Turn>, OutOfMemory> {
    let order = memory_order(alloc, machine.trace())?;
    turns_of(alloc, events, &order.0)
}

/// A run as an execution.
fn file_of(
    alloc: Global,
    image: &[u8],
    input: &[u8],
    settings: &Settings<'_>,
    ran: Ran,
) -> Result<ExecutionFile, RunError>
    requires some_pages { 1 ≤ settings.now.pages }
    requires few_pages { settings.now.pages ≤ MOST_PAGES }
    ensures file { IfOk result (λ f.
        IsFileWith settings.now image.now input.now (map hart_view ran.parts.items)
        (as_recorded f)) }
    ensures errors { IfErr result (λ e. IsReason settings.now image.now e) }
{
    let calls = calls_in(alloc, image, input, settings, &ran)?;
    let (image, input) = copied(alloc, image, input)?;
    Ok(ExecutionFile {
        flat: is_flat(settings.format),
        pages: settings.pages,
        image,
        input,
        harts: ran.parts,
        calls,
        order: ran.order,
    })
}

pub(crate) fn is_flat(format: Format) -> bool
    ensures { result ≡ is_flat format }
{
    match format {
        Format::Flat => true,
        Format::Elf => false,
    }
}

/// The calls of a run in their order.
fn calls_in(
    alloc: Global,
    image: &[u8],
    input: &[u8],
    settings: &Settings<'_>,
    ran: &Ran,
) -> Result<Vec<Turn>, RunError>
    requires some_pages { 1 ≤ settings.now.pages }
    requires few_pages { settings.now.pages ≤ MOST_PAGES }
    ensures errors { IfErr result (λ e. IsReason settings.now image.now e) }
{
    let loaded = load(alloc, settings.format, image, settings.pages)?;
    Ok(calls_of(alloc, &loaded, input, &ran.parts, &ran.rounds, &ran.done)?)
}

/// The same image and input.
pub(crate) fn copied(
    alloc: Global,
    image: &[u8],
    input: &[u8],
) -> Result<(Vec<u8>, Vec<u8>), OutOfMemory>
    ensures image { IfOk result (λ c. c.0.items ≡ image.now) }
    ensures input { IfOk result (λ c. c.1.items ≡ input.now) }
{
    let image = Vec::from_slice(alloc, image)?;
    let input = Vec::from_slice(alloc, input)?;
    Ok((image, input))
}

/// The calls of a run in their order.
fn calls_of(
    alloc: Global,
    image: &Image,
    input: &[u8],
    parts: &[HartDeeds],
    rounds: &[u32],
    done: &[u64],
) -> Result<Vec<Turn>, OutOfMemory> {
    if parts.len() > 64 {
        return Ok(Vec::new(alloc));
    }
    let mut follower = Follower::open(alloc, image, input, parts, None)?;
    let mut calls = Vec::new(alloc);
    let added = add_calls(&mut calls, &mut follower, parts.len(), rounds, done);
    drop(follower);
    added?;
    forget_plain(&mut calls);
    Ok(calls)
}

/// Adds the calls that so many harts make in these rounds, after each of which they have done so many instructions.
fn add_calls(
    calls: &mut Vec<Turn>,
    follower: &mut Follower<'_>,
    harts: usize,
    rounds: &[u32],
    done: &[u64],
) -> Result<(), OutOfMemory> {
    let mut told = done.iter();
    for round in rounds {
        let mut hart = 0u8;
        for _ in 0..harts {
            let count = told.next().copied().unwrap_or(0);
            add_calls_of(calls, follower, hart, *round, count)?;
            hart = hart.wrapping_add(1);
        }
    }
    Ok(())
}

/// Adds the calls that a hart makes in a round, after which it has done so many instructions.
fn add_calls_of(
    calls: &mut Vec<Turn>,
    follower: &mut Follower<'_>,
    hart: u8,
    round: u32,
    count: u64,
) -> Result<(), OutOfMemory> {
    for _ in follower.done(hart)..count {
        follower.set_round(round);
        match follower.step(hart) {
            Ok(taken) => add_call(calls, hart, round, taken)?,
            Err(Halt::OutOfMemory) => return Err(OutOfMemory),
            // A run is an execution, so that its harts have these steps.
            Err(Halt::Fault(_)) => return Ok(()),
        }
    }
    Ok(())
}
