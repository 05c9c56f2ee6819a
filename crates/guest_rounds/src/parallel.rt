//! The parallel phase of a guest's round: the rounds of all harts, and what they left.

ghost use Rattle.std.specs.Prelude.{◌≡◌, ◌<◌, ◌≤◌, ◌-◌, ℕ, [], IfOk, OnOk, length, slice_index};
ghost use Rattle.round_schedule.specs.Schedule.{hart_rounds};
ghost use Rattle.round_planner.specs.Quotas.{quota_of, quotas_of};
ghost use Rattle.hart_step.specs.Words.{words_of};
ghost use Rattle.hart_rounds.specs.Starts.{keeps_log, rounds_of};
ghost use Rattle.guest_rounds.specs.HartEnds.{AreAtRest, AreEndsOf, StoppedStay, harts_of};
ghost use Rattle.parallel_phase.specs.Rounds.{IsWholeHistory, IsWholeRound};
ghost use Rattle.round_schedule.specs.Bounds.{AreWorkers};

use crate::crew::Crew;
use crate::spare_lists::SpareLists;
use hart_rounds::{HartEnd, RoundStart, round_in_place};
use hart_step::{Access, Hart};
use pages::OutOfMemory;
use parallel_phase::{Gate, HartRound, RunStarts, gather, place_ends};
use round_planner::Plan;
use serial_phase::SharedState;
use std::marker::Brand;
use std::sync::Wait;
use std::thread::Threads;

/// How many harts a plan has at most.
const MOST_HARTS: usize = 64;

/// Does the rounds of all harts, each on memory as it is, by the workers of a crew. The spare list of what harts left is taken for
/// its room, and for the harts in it that have stopped, which are those of the machine: the rest of what it holds is let go.
pub(crate) fn parallel<G: Gate + Sync, R: Threads + Wait + Sync>(
    crew: &Crew<'_, G, R>,
    shared: &SharedState,
    harts: &[Hart],
    plan: &Plan,
    round: u32,
    spare: &mut SpareLists,
) -> Result<Vec<HartEnd>, OutOfMemory>
    requires workers { AreWorkers crew.now.workers }
    requires harts { length harts.now ≡ plan.now.harts }
    requires round { 1 ≤ round }
    requires kept { StoppedStay harts.now (harts_of spare.old.ends.items) }
    ensures taken { spare.new.ends.items ≡ [] }
    ensures ends { IfOk result (λ os. AreEndsOf (keeps_log crew.now.form) shared.now.pages.memory
        (hart_rounds (words_of shared.now.pages.memory.code) shared.now.pages.memory.bytes
        (quotas_of plan.now (round - 1)) harts.now) os.items) }
{
    // At most 64.
    let _harts = plan.harts();
    let mut all = [0; MOST_HARTS];
    let quotas = &mut all[..harts.len()];
    set_quotas(plan, round, quotas);
    let start = RoundStart::new(&shared.pages, &shared.code, harts, quotas).with_form(crew.form);
    parallel_from::<Brand, G, R>(crew, &start, spare)
}

/// The same from a start that is tied to the book of the round, which is its first. A lone worker needs no book.
fn parallel_from<S: RunStarts + Send + Sync, G: Gate + Sync, R: Threads + Wait + Sync>(
    crew: &Crew<'_, G, R>,
    start: &RoundStart<'_>,
    spare: &mut SpareLists,
) -> Result<Vec<HartEnd>, OutOfMemory>
    requires workers { AreWorkers crew.now.workers }
    requires start { start.now ≡ S.starts 0 }
    requires sized { length start.now.quotas ≡ length start.now.harts }
    requires kept { StoppedStay start.now.harts (harts_of spare.old.ends.items) }
    ensures taken { spare.new.ends.items ≡ [] }
    ensures ends { IfOk result (λ os.
        AreEndsOf start.now.logs start.now.memory (rounds_of start.now) os.items) }
{
    let mut ends = spare.take_ends(start.pages().allocator());
    if crew.workers == 1 {
        return parallel_alone(crew.gate, start, ends, &mut spare.accesses);
    }
    ends.clear();
    gather_ends::<S, G, R>(crew, start, ends)
}

/// Does the rounds of all harts on the calling thread, in hart order, each in the place of what an earlier round of the hart left.
// docs/decisions/threads.md
fn parallel_alone<G: Gate>(
    gate: &G,
    start: &RoundStart<'_>,
    mut ends: Vec<HartEnd>,
    accesses: &mut Vec<Access>,
) -> Result<Vec<HartEnd>, OutOfMemory>
    requires sized { length start.now.quotas ≡ length start.now.harts }
    requires kept { StoppedStay start.now.harts (harts_of ends.items) }
    ensures { IfOk result (λ os.
        AreEndsOf start.now.logs start.now.memory (rounds_of start.now) os.items) }
{
    fill_places(gate, start, &mut ends, accesses)?;
    Ok(ends)
}

/// Sees that there is a place for each hart, and does the rounds there.
fn fill_places<G: Gate>(
    gate: &G,
    start: &RoundStart<'_>,
    ends: &mut Vec<HartEnd>,
    accesses: &mut Vec<Access>,
) -> Result<(), OutOfMemory>
    requires sized { length start.now.quotas ≡ length start.now.harts }
    requires kept { StoppedStay start.now.harts (harts_of ends.old.items) }
    ensures { OnOk result (AreEndsOf start.now.logs start.now.memory
        (rounds_of start.now) ends.new.items) }
{
    // Asked for speed: after the first round they are there.
    if ends.len() != start.harts().len() {
        make_as_many(start, ends)?;
    }
    rounds_in_place(gate, start, ends.as_mut_slice(), accesses)
}

/// Sees that there is a place for each hart, those that are missing as of rounds that did nothing.
fn make_as_many(start: &RoundStart<'_>, ends: &mut Vec<HartEnd>) -> Result<(), OutOfMemory>
    requires { StoppedStay start.now.harts (harts_of ends.old.items) }
    ensures many { OnOk result (length ends.new.items ≡ length start.now.harts) }
    ensures kept { OnOk result (StoppedStay start.now.harts (harts_of ends.new.items)) }
{
    let alloc = start.pages().allocator();
    let harts = start.harts();
    ends.truncate(harts.len());
    for number in ends.len()..harts.len() {
        ends.push(HartEnd::at_rest(alloc, harts[number]))?;
    }
    Ok(())
}

/// Does the rounds of all harts, each in its place.
fn rounds_in_place<G: Gate>(
    gate: &G,
    start: &RoundStart<'_>,
    ends: &mut [HartEnd],
    accesses: &mut Vec<Access>,
) -> Result<(), OutOfMemory>
    requires sized { length start.now.quotas ≡ length start.now.harts }
    requires many { length ends.old ≡ length start.now.harts }
    requires kept { StoppedStay start.now.harts (harts_of ends.old) }
    ensures { OnOk result (AreEndsOf start.now.logs start.now.memory
        (rounds_of start.now) ends.new) }
{
    for number in 0..start.harts().len() {
        gate.pass(number as u32);
        round_in_place(number, start, &mut ends[number], accesses)?;
        gate.done(number as u32);
    }
    Ok(())
}

/// Gathers the rounds of all harts, and puts what they left in hart order.
fn gather_ends<S: RunStarts + Send + Sync, G: Gate + Sync, R: Threads + Wait + Sync>(
    crew: &Crew<'_, G, R>,
    start: &RoundStart<'_>,
    ends: Vec<HartEnd>,
) -> Result<Vec<HartEnd>, OutOfMemory>
    requires workers { AreWorkers crew.now.workers }
    requires start { start.now ≡ S.starts 0 }
    requires empty { ends.items ≡ [] }
    ensures { IfOk result (λ os.
        AreEndsOf start.now.logs start.now.memory (rounds_of start.now) os.items) }
{
    let mut history = gather::<S, G, R>(crew.rt, start, crew.workers, crew.gate)?;
    let ends = take_ends(start, 0, &mut history, ends);
    drop(history);
    ends
}

/// What the rounds of a whole history left, in hart order, in an empty list that is taken for its capacity. The history stays, empty,
/// for its own.
pub(crate) fn take_ends<S: RunStarts>(
    start: &RoundStart<'_>,
    round: u32,
    history: &mut Vec<HartRound<S>>,
    mut ends: Vec<HartEnd>,
) -> Result<Vec<HartEnd>, OutOfMemory>
    requires whole { IsWholeRound round (length start.now.harts) history.old.items }
    requires start { start.now ≡ S.starts round }
    requires empty { ends.items ≡ [] }
    ensures ends { IfOk result (λ os. IsWholeHistory start.now os.items) }
    ensures emptied { OnOk result (history.new.items ≡ []) }
{
    // At most 64.
    let _harts = start.harts().len();
    make_as_many(start, &mut ends)?;
    place_ends(round, history, ends.as_mut_slice());
    Ok(ends)
}

/// Gives each hart the state that its round left. One that had stopped has it already.
pub(crate) fn give_harts(ends: &[HartEnd], harts: &mut [Hart])
    requires count { length harts.old ≡ length ends.now }
    requires at_rest { AreAtRest harts.old ends.now }
    ensures { harts.new ≡ harts_of ends.now }
{
    for number in 0..ends.len() {
        if harts[number].stop.is_none() {
            harts[number] = ends[number].hart;
        }
    }
}

/// Sets how many instructions each hart may do in a round.
pub(crate) fn set_quotas(plan: &Plan, round: u32, quotas: &mut [u32])
    requires round { 1 ≤ round }
    requires sized { length quotas.old ≡ plan.now.harts }
    ensures { (h : ℕ) → h < plan.now.harts →
        slice_index quotas.new h ≡ quota_of plan.now round h }
{
    for hart in 0..plan.harts() {
        quotas[hart as usize] = plan.quota(round, hart);
    }
}
