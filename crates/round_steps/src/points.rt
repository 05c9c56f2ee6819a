//! What is told in a round: where a debugger asked to stop, and what its watchpoints tell of.

ghost use Rattle.std.specs.Prelude.{◌≡◌, ℕ, ◌++◌, ◌+◌, ◌<◌, ◌^◌, false, map, true, IfOk, IfErr, OnOk};
ghost use Rattle.host_io.specs.declared.error.RunError.TheVariants as refusals;
ghost use Rattle.machine.specs.Machine.{Running};
ghost use Rattle.machine.specs.Untraced.{IsAfter, IsUntraced};
ghost use Rattle.round_planner.specs.Quotas.{quotas_of};
ghost use Rattle.hart_step.specs.declared.hart.Hart.{Hart};
ghost use Rattle.hart_step.specs.Words.{words_of};
ghost use Rattle.moments.specs.Hits.{tells};
ghost use Rattle.round_steps.specs.Places.{round_places};
ghost use Rattle.moments.specs.Moves.{moves_of};
ghost use Rattle.watching.specs.Watches.{hits_of};
ghost use Rattle.round_steps.specs.Points.{break_point, done_by, hit_place, hit_point, hit_side, points_of};
ghost use Rattle.round_schedule.specs.Bounds.{AreWorkers};

use crate::round::places_in_round;
use crate::told::Told;
use hart_step::Hart;
use host_io::RunError;
use machine::UntracedMachine;
use moments::Asked;
use pages::{OutOfMemory, Range};
use past_harts::{Moment, Place, Point, Side, run_noting};
use std::alloc::Global;
use std::sync::Wait;
use std::thread::Threads;
use trace::Trace;
use watching::{Hit, Watchpoint, Way, hits_in_round, save};

/// What a debugger is told.
#[derive(Drop)]
pub struct Telling {
    /// Where it stops whatever is accessed.
    pub asked: Asked,
    /// Its watchpoints.
    pub watches: Vec<Watchpoint>,
}

/// What is told in the next round of a run, one way. The machine does that round. It may wait.
pub(crate) fn points_in_round<R: Threads + Wait + Sync>(
    rt: &R,
    machine: &mut UntracedMachine,
    code: &[Range],
    asked: &Asked,
    watches: &[Watchpoint],
    way: Way,
    workers: u32,
) -> Result<Vec<Told>, RunError>
    requires run { (m : Running) × IsUntraced m machine.old }
    requires rounds { machine.old.rounds + 1 < 2 ^ 32 }
    requires workers { AreWorkers workers }
    ensures runs { OnOk result (IsAfter 1 machine.old machine.new) }
    ensures counted { OnOk result (machine.new.rounds ≡ machine.old.rounds + 1) }
    ensures told { (m : Running) → IsUntraced m machine.old → m.code ≡ code.now →
        IfOk result (λ v. v.items ≡ points_of way asked.now watches.now m) }
    ensures refused { IfErr result (λ e. e ≡ refusals.OutOfMemory) }
{
    let rounds = machine.rounds();
    let alloc = machine.pages().allocator();
    let places = places_asked(rt, machine, code, asked)?;
    let mut told = Vec::new(alloc);
    add_places(&mut told, rounds, &places)?;
    let harts = copied(alloc, machine.harts())?;
    let hits = hits_in_next(rt, machine, watches, way, workers)?;
    add_hits(&mut told, rounds, &harts, &hits, way)?;
    Ok(told)
}

/// Where a debugger asked to stop in the next round of a run. A round is walked over only where it asked for something. It may wait.
fn places_asked<R: Threads + Wait + Sync>(
    rt: &R,
    machine: &mut UntracedMachine,
    code: &[Range],
    asked: &Asked,
) -> Result<Vec<Place>, RunError>
    requires run { (m : Running) × IsUntraced m machine.old }
    requires rounds { machine.old.rounds + 1 < 2 ^ 32 }
    ensures stays { machine.new ≡ machine.old }
    ensures places { (m : Running) → IsUntraced m machine.old → m.code ≡ code.now →
        IfOk result (λ v. v.items ≡ round_places asked.now m) }
    ensures refused { IfErr result (λ e. e ≡ refusals.OutOfMemory) }
{
    if is_silent(asked) {
        return Ok(Vec::new(machine.pages().allocator()));
    }
    places_in_round(rt, machine, code, asked)
}

/// Whether nothing is asked for.
fn is_silent(asked: &Asked) -> bool
    ensures { result ≡ true → (i : ℕ) (h : Hart) → tells asked.now i h ≡ false }
{
    match asked.each {
        Some(_) => false,
        None => !asked.faults && asked.stops.is_empty(),
    }
}

/// What watchpoints tell of in the next round of a run. The machine does that round; its events are noted only where there are
/// watchpoints. It may wait.
fn hits_in_next<R: Threads + Wait + Sync>(
    rt: &R,
    machine: &mut UntracedMachine,
    watches: &[Watchpoint],
    way: Way,
    workers: u32,
) -> Result<Vec<Hit>, RunError>
    requires run { (m : Running) × IsUntraced m machine.old }
    requires rounds { machine.old.rounds + 1 < 2 ^ 32 }
    requires workers { AreWorkers workers }
    ensures runs { OnOk result (IsAfter 1 machine.old machine.new) }
    ensures counted { OnOk result (machine.new.rounds ≡ machine.old.rounds + 1) }
    ensures hits { (m : Running) → IsUntraced m machine.old →
        IfOk result (λ v. v.items ≡ hits_of way watches.now
        (moves_of (words_of m.code) m.plan.budget (quotas_of m.plan) m.state)) }
    ensures refused { IfErr result (λ e. e ≡ refusals.OutOfMemory) }
{
    match watches {
        [] => {
            machine.run(rt, 1, workers)?;
            Ok(Vec::new(machine.pages().allocator()))
        }
        [_, ..] => hits_noted(rt, machine, watches, way, workers),
    }
}

/// The same from the round's events.
fn hits_noted<R: Threads + Wait + Sync>(
    rt: &R,
    machine: &mut UntracedMachine,
    watches: &[Watchpoint],
    way: Way,
    workers: u32,
) -> Result<Vec<Hit>, RunError>
    requires run { (m : Running) × IsUntraced m machine.old }
    requires rounds { machine.old.rounds + 1 < 2 ^ 32 }
    requires workers { AreWorkers workers }
    ensures runs { OnOk result (IsAfter 1 machine.old machine.new) }
    ensures counted { OnOk result (machine.new.rounds ≡ machine.old.rounds + 1) }
    ensures hits { (m : Running) → IsUntraced m machine.old →
        IfOk result (λ v. v.items ≡ hits_of way watches.now
        (moves_of (words_of m.code) m.plan.budget (quotas_of m.plan) m.state)) }
    ensures refused { IfErr result (λ e. e ≡ refusals.OutOfMemory) }
{
    let pages = machine.pages();
    pages.bytes_fit();
    let alloc = pages.allocator();
    let saved = save(alloc, pages, watches)?;
    let mut trace = Trace::new(alloc, Vec::new(alloc));
    run_noting(rt, machine, 1, workers, &mut trace)?;
    let hits = hits_in_round(alloc, &saved, &trace, watches, way)?;
    Ok(hits)
}

/// The same harts.
fn copied(alloc: Global, harts: &[Hart]) -> Result<Vec<Hart>, OutOfMemory>
    ensures { IfOk result (λ v. v.items ≡ harts.now) }
{
    let copy = Vec::from_slice(alloc, harts)?;
    Ok(copy)
}

/// Adds the places of a round at which a debugger asked to stop.
fn add_places(told: &mut Vec<Told>, rounds: u32, places: &[Place]) -> Result<(), OutOfMemory>
    ensures { OnOk result (told.new.items ≡
        told.old.items ++ map (break_point rounds) places.now) }
{
    for place in places {
        told.push(Told {
            point: Point {
                moment: Moment {
                    rounds,
                    place: *place,
                },
                side: Side::Break,
            },
            watch: None,
        })?;
    }
    Ok(())
}

/// Adds what watchpoints tell of a round that begins with these harts.
fn add_hits(
    told: &mut Vec<Told>,
    rounds: u32,
    harts: &[Hart],
    hits: &[Hit],
    way: Way,
) -> Result<(), OutOfMemory>
    ensures { OnOk result (told.new.items ≡
        told.old.items ++ map (hit_point way rounds harts.now) hits.now) }
{
    for hit in hits {
        told.push(told_at(rounds, harts, *hit, way))?;
    }
    Ok(())
}

/// Where a hit is told.
fn told_at(rounds: u32, harts: &[Hart], hit: Hit, way: Way) -> Told
    ensures { result ≡ hit_point way rounds harts.now hit }
{
    Told {
        point: Point {
            moment: Moment {
                rounds,
                place: place_of(harts, hit, way),
            },
            side: side_of(way, hit.rival),
        },
        watch: Some(hit.watch),
    }
}

/// The place of a hit: before its move on the way on, and behind it on the way back.
fn place_of(harts: &[Hart], hit: Hit, way: Way) -> Place
    ensures { result ≡ hit_place way harts.now hit }
{
    let hart = u32::from(hit.hart);
    let done = hit.place.wrapping_sub(done_by(harts, hart));
    Place {
        phase: hit.phase,
        hart,
        count: match way {
            Way::On => done,
            Way::Back => done.wrapping_add(1),
        },
    }
}

/// How many instructions a hart has done; 0 where there is no such hart.
fn done_by(harts: &[Hart], number: u32) -> u64
    ensures { result ≡ done_by harts.now number }
{
    match harts.get(number as usize) {
        Some(hart) => hart.done,
        None => 0,
    }
}

/// On which side a hit is told.
fn side_of(way: Way, rival: bool) -> Side
    ensures { result ≡ hit_side way rival }
{
    match (way, rival) {
        (Way::On, true) => Side::Rival,
        (Way::On, false) => Side::Access,
        (Way::Back, true) => Side::RivalAfter,
        (Way::Back, false) => Side::After,
    }
}
