ghost use Rattle.std.specs.Prelude.{◌≡◌, ℕ, ◌+◌, ◌<◌, ◌^◌, false, is_some, IfOk, IfErr};
ghost use Rattle.host_io.specs.declared.error.RunError.TheVariants as refusals;
ghost use Rattle.hart_step.specs.declared.hart.Hart.{Hart};
ghost use Rattle.machine.specs.Machine.{Running};
ghost use Rattle.machine.specs.Untraced.{IsUntraced};
ghost use Rattle.moments.specs.Hits.{tells};
ghost use Rattle.round_steps.specs.Points.{ends, nearest_told, or_else};
ghost use Rattle.round_steps.specs.Searching.{FindsNearest};
ghost use Rattle.round_schedule.specs.Bounds.{AreWorkers};

use crate::points::{Telling, points_in_round};
use crate::stops_alone::{asks_of_stops_alone, have_no_new_stop, nothing_asked};
use crate::told::{Told, earliest_behind, latest_before};
use host_io::RunError;
use machine::UntracedMachine;
use moments::Asked;
use pages::Range;
use past_harts::Point;
use std::mem::swap;
use std::sync::Wait;
use std::thread::Threads;
use watching::{Watchpoint, Way};

/// The nearest point one way at which something is told in the next rounds of a run: the earliest one behind another point, or the latest
/// one before it. Of the run there is the machine without its trace, and its code; rounds are run on 1 to 16 workers. The machine has done
/// the rounds up to the one in which something is told, and all of them where nothing is, or on the way back. It may wait.
///
/// # Errors
///
/// `OutOfMemory` alone.
pub fn nearest<R: Threads + Wait + Sync>(
    rt: &R,
    machine: &mut UntracedMachine,
    code: &[Range],
    rounds: u32,
    telling: &Telling,
    way: Way,
    here: &Point,
    workers: u32,
) -> Result<Option<Told>, RunError>
    requires run { (m : Running) × IsUntraced m machine.old }
    requires rounds { machine.old.rounds + rounds < 2 ^ 32 }
    requires workers { AreWorkers workers }
    ensures nearest { (m : Running) → IsUntraced m machine.old → m.code ≡ code.now →
        IfOk result (FindsNearest way
        telling.now.asked telling.now.watches.items m rounds here.now machine.old machine.new) }
    ensures refused { IfErr result (λ e. e ≡ refusals.OutOfMemory) }
{
    let (asked, watches) = (&telling.asked, telling.watches.as_slice());
    if !asks_of_stops_alone(asked) {
        return nearest_in(
            rt, machine, code, rounds, asked, watches, way, here, workers,
        );
    }
    let mut before = machine.share()?;
    let found = nearest_stop(
        rt,
        machine,
        &mut before,
        code,
        rounds,
        telling,
        way,
        here,
        workers,
    );
    drop(before);
    found
}

/// The same where nothing is told of a hart that runs, with the machine once more to begin anew from. A hart that stops is stopped when
/// the rounds are done: none of them is walked over where no hart is.
fn nearest_stop<R: Threads + Wait + Sync>(
    rt: &R,
    machine: &mut UntracedMachine,
    before: &mut UntracedMachine,
    code: &[Range],
    rounds: u32,
    telling: &Telling,
    way: Way,
    here: &Point,
    workers: u32,
) -> Result<Option<Told>, RunError>
    requires run { (m : Running) × IsUntraced m machine.old }
    requires rounds { machine.old.rounds + rounds < 2 ^ 32 }
    requires workers { AreWorkers workers }
    requires before { before.old ≡ machine.old }
    requires stops { (i : ℕ) (h : Hart) → is_some h.stop ≡ false →
        tells telling.now.asked i h ≡ false }
    ensures nearest { (m : Running) → IsUntraced m machine.old → m.code ≡ code.now →
        IfOk result (FindsNearest way
        telling.now.asked telling.now.watches.items m rounds here.now machine.old machine.new) }
    ensures refused { IfErr result (λ e. e ≡ refusals.OutOfMemory) }
{
    let (asked, watches) = (&telling.asked, telling.watches.as_slice());
    let nothing = nothing_asked(before.pages().allocator());
    let watched = nearest_in(
        rt, machine, code, rounds, &nothing, watches, way, here, workers,
    );
    drop(nothing);
    let found = watched?;
    let harts = before.plan().harts();
    if have_no_new_stop(harts, before.harts(), machine.harts(), asked) {
        return Ok(found);
    }
    swap(machine, before);
    nearest_in(
        rt, machine, code, rounds, asked, watches, way, here, workers,
    )
}

/// The nearest one, round by round: on the way on no further than the round in which something is told.
fn nearest_in<R: Threads + Wait + Sync>(
    rt: &R,
    machine: &mut UntracedMachine,
    code: &[Range],
    rounds: u32,
    asked: &Asked,
    watches: &[Watchpoint],
    way: Way,
    here: &Point,
    workers: u32,
) -> Result<Option<Told>, RunError>
    requires run { (m : Running) × IsUntraced m machine.old }
    requires rounds { machine.old.rounds + rounds < 2 ^ 32 }
    requires workers { AreWorkers workers }
    ensures nearest { (m : Running) → IsUntraced m machine.old → m.code ≡ code.now →
        IfOk result (FindsNearest way
        asked.now watches.now m rounds here.now machine.old machine.new) }
    ensures refused { IfErr result (λ e. e ≡ refusals.OutOfMemory) }
{
    let mut found = None;
    for done in 0..rounds {
        let told = points_in_round(rt, machine, code, asked, watches, way, workers)?;
        found = or_else(nearest_of(way, here, &told), found);
        if ends(way, found) {
            return Ok(found);
        }
    }
    Ok(found)
}

/// The nearest one of these, one way.
fn nearest_of(way: Way, here: &Point, told: &[Told]) -> Option<Told>
    ensures { result ≡ nearest_told way here.now told.now }
{
    match way {
        Way::On => earliest_behind(here, told),
        Way::Back => latest_before(here, told),
    }
}

/// Whether no later round has a nearer one.
fn ends(way: Way, found: Option<Told>) -> bool
    ensures { result ≡ ends way found }
{
    match way {
        Way::On => found.is_some(),
        Way::Back => false,
    }
}

/// The first of two where there is one, and else the other.
fn or_else(told: Option<Told>, other: Option<Told>) -> Option<Told>
    ensures { result ≡ or_else told other }
{
    match told {
        Some(told) => Some(told),
        None => other,
    }
}
