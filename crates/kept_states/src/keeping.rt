ghost use Rattle.std.specs.Prelude.{◌≡◌, ◌≤◌, ◌<◌, ◌↔◌, ◌++◌, ◌∷◌, [], All, true, map, length, IsTrue, IfOk, OnOk};
ghost use Rattle.hart_step.specs.Stops.{has_stop};
ghost use Rattle.machine.specs.Machine.{Running};
ghost use Rattle.machine.specs.Untraced.{IsUntraced};
ghost use Rattle.std.specs.Int.{w64};
ghost use Rattle.recording.specs.Fields.{HaveEach};
ghost use Rattle.recording.specs.Grammar.{any, hart_summary, checkpoint_after, registers, summary};
ghost use Rattle.recording.specs.Views.{hart_view, checkpoint_view, registers_view, summary_view};
ghost use Rattle.kept_states.specs.Summaries.{IsSeenOf, code_of, hart_summary_of, checkpoint_in, registers_of, summary_in, value_of};

use hart_step::{Hart, Stop};
use machine::UntracedMachine;
use pages::OutOfMemory;
use recording::{Checkpoint, HartSummary, Summary};
use std::alloc::Global;

/// What is seen of the state after a round, and of no more is anything kept.
#[derive(Drop)]
pub struct Seen<'a> {
    /// The harts, in hart order.
    pub harts: &'a [Hart],
    /// How many bytes of output there are.
    pub output: u64,
    /// How many events the trace has.
    pub trace: u64,
    /// The round's number, and 0 before the first one.
    pub round: u32,
}

/// What is seen of a machine.
pub fn seen_of(machine: &UntracedMachine) -> Seen<'_>
    ensures seen { (m : Running) → IsUntraced m machine.now → IsSeenOf result m.state }
    ensures harts { length result.harts.now ≡ machine.now.plan.harts }
    ensures round { result.round ≡ machine.now.rounds }
    ensures stops { (m : Running) → IsUntraced m machine.now →
        All (λ h. has_stop h.stop ≡ true) result.harts.now }
{
    Seen {
        harts: machine.harts(),
        output: machine.output().len() as u64,
        trace: machine.events(),
        round: machine.rounds(),
    }
}

/// What is kept of a state, with registers where they are due: after each round whose number is a multiple of `every`, and after
/// none where it is 0.
///
/// # Errors
///
/// `OutOfMemory` alone.
pub fn keep(alloc: Global, seen: &Seen<'_>, every: u32) -> Result<Checkpoint, OutOfMemory>
    requires { All (λ h. has_stop h.stop ≡ true) seen.now.harts.now }
    ensures checkpoint { IfOk result (λ k. checkpoint_view k ≡ checkpoint_in every seen.now) }
    ensures ranges { IfOk result (λ k.
        (checkpoint_after (length seen.now.harts.now) every seen.now.round).Has
        (checkpoint_view k)) }
{
    let summary = summary_of(alloc, seen)?;
    let registers = if every != 0 && seen.round % every == 0 {
        Some(registers_of_all(alloc, seen.harts)?)
    } else {
        None
    };
    Ok(Checkpoint { summary, registers })
}

/// The summary of a state.
fn summary_of(alloc: Global, seen: &Seen<'_>) -> Result<Summary, OutOfMemory>
    requires { All (λ h. has_stop h.stop ≡ true) seen.now.harts.now }
    ensures summary { IfOk result (λ s. summary_view s ≡ summary_in seen.now) }
    ensures ranges { IfOk result (λ s. (summary (length seen.now.harts.now)).Has (summary_view s)) }
{
    Ok(Summary {
        output: doubleword(seen.output),
        trace: doubleword(seen.trace),
        harts: summaries_of(alloc, seen.harts)?,
    })
}

/// The summaries of harts.
fn summaries_of(alloc: Global, harts: &[Hart]) -> Result<Vec<HartSummary>, OutOfMemory>
    requires { All (λ h. has_stop h.stop ≡ true) harts.now }
    ensures summaries { IfOk result (λ v. map hart_view v.items ≡ map hart_summary_of harts.now) }
    ensures ranges { IfOk result (λ v.
        HaveEach (length harts.now) 0 (λ i. hart_summary) (map hart_view v.items)) }
{
    let mut summaries = Vec::new(alloc);
    for place in 0..harts.len() {
        add_summary(&mut summaries, hart_summary_of(&harts[place]))?;
    }
    Ok(summaries)
}

fn add_summary(summaries: &mut Vec<HartSummary>, summary: HartSummary) -> Result<(), OutOfMemory>
    ensures ok { OnOk result (summaries.new.items ≡ summaries.old.items ++ summary ∷ []) }
{
    match summaries.push(summary) {
        Ok(()) => Ok(()),
        Err(_) => Err(OutOfMemory),
    }
}

/// The summary of a hart.
fn hart_summary_of(hart: &Hart) -> HartSummary
    requires { has_stop hart.now.stop ≡ true }
    ensures summary { hart_view result ≡ hart_summary_of hart.now }
    ensures ranges { hart_summary.Has (hart_view result) }
{
    HartSummary {
        pc: doubleword(hart.pc),
        done: doubleword(hart.done),
        code: code(hart.stop),
        value: doubleword(value(hart.stop)),
    }
}

/// The same number, which eight bytes hold.
fn doubleword(number: u64) -> u64
    ensures same { result ≡ number }
    ensures range { (any w64).Has number }
{
    number
}

/// Registers x1 to x31 of harts.
fn registers_of_all(alloc: Global, harts: &[Hart]) -> Result<Vec<Vec<u64>>, OutOfMemory>
    ensures registers { IfOk result (λ v. map (λ r. r.items) v.items ≡ map registers_of harts.now) }
    ensures ranges { IfOk result (λ v.
        (registers (length harts.now)).Has (map (λ r. r.items) v.items)) }
{
    let mut all = Vec::new(alloc);
    for place in 0..harts.len() {
        add_registers(&mut all, registers_of(alloc, &harts[place])?)?;
    }
    Ok(all)
}

fn add_registers(all: &mut Vec<Vec<u64>>, registers: Vec<u64>) -> Result<(), OutOfMemory>
    ensures ok { OnOk result (all.new.items ≡ all.old.items ++ registers ∷ []) }
{
    match all.push(registers) {
        Ok(()) => Ok(()),
        Err(_) => Err(OutOfMemory),
    }
}

/// Registers x1 to x31 of a hart.
fn registers_of(alloc: Global, hart: &Hart) -> Result<Vec<u64>, OutOfMemory>
    ensures registers { IfOk result (λ v. v.items ≡ registers_of hart.now) }
    ensures ranges { IfOk result (λ v. HaveEach 31 1 (λ x. any w64) v.items) }
{
    match hart.x.split_first() {
        Some((_, registers)) => copied_registers(alloc, registers),
        None => unreachable!(),
    }
}

fn copied_registers(alloc: Global, registers: &[u64]) -> Result<Vec<u64>, OutOfMemory>
    requires { length registers.now ≡ 31 }
    ensures registers { IfOk result (λ v. v.items ≡ registers.now) }
    ensures ranges { IfOk result (λ v. HaveEach 31 1 (λ x. any w64) v.items) }
{
    match Vec::from_slice(alloc, registers) {
        Ok(copy) => Ok(copy),
        Err(_) => Err(OutOfMemory),
    }
}

/// Whether a hart is what was kept of it.
fn hart_agrees(recorded: &HartSummary, hart: &Hart) -> bool
    ensures { IsTrue result ↔ hart_view recorded.now ≡ hart_summary_of hart.now }
{
    recorded.pc == hart.pc
        && recorded.done == hart.done
        && recorded.code == code(hart.stop)
        && recorded.value == value(hart.stop)
}

fn code(stop: Option<Stop>) -> u8
    ensures { result ≡ code_of stop }
{
    match stop {
        None => 0,
        Some(stop) => stop.code,
    }
}

fn value(stop: Option<Stop>) -> u64
    ensures { result ≡ value_of stop }
{
    match stop {
        None => 0,
        Some(stop) => stop.value,
    }
}

/// Whether harts are what was kept of them.
fn harts_agree(recorded: &[HartSummary], harts: &[Hart]) -> bool
    ensures { IsTrue result ↔ map hart_view recorded.now ≡ map hart_summary_of harts.now }
{
    match (recorded, harts) {
        ([], []) => true,
        ([first, others @ ..], [hart, rest @ ..]) => hart_agrees(first, hart)
            && harts_agree(others, rest),
        _ => false,
    }
}

/// Whether a state is what was kept of it, its registers left out.
fn summary_agrees(recorded: &Summary, seen: &Seen<'_>) -> bool
    ensures { IsTrue result ↔ summary_view recorded.now ≡ summary_in seen.now }
{
    recorded.output == seen.output
        && recorded.trace == seen.trace
        && harts_agree(&recorded.harts, seen.harts)
}

/// Whether a state is what was kept of it, with registers where they are due.
pub fn agrees(recorded: &Checkpoint, every: u32, seen: &Seen<'_>) -> bool
    ensures { IsTrue result ↔ checkpoint_view recorded.now ≡ checkpoint_in every seen.now }
{
    if !summary_agrees(&recorded.summary, seen) {
        return false;
    }
    let due = every != 0 && seen.round % every == 0;
    match &recorded.registers {
        None => !due,
        Some(registers) => due && all_registers_agree(registers, seen.harts),
    }
}

/// Whether registers x1 to x31 of harts are what was kept of them.
fn all_registers_agree(recorded: &[Vec<u64>], harts: &[Hart]) -> bool
    ensures { IsTrue result ↔ map (λ r. r.items) recorded.now ≡ map registers_of harts.now }
{
    match (recorded, harts) {
        ([], []) => true,
        ([first, others @ ..], [hart, rest @ ..]) => registers_agree(first, hart)
            && all_registers_agree(others, rest),
        _ => false,
    }
}

fn registers_agree(recorded: &Vec<u64>, hart: &Hart) -> bool
    ensures { IsTrue result ↔ recorded.now.items ≡ registers_of hart.now }
{
    match hart.x.split_first() {
        Some((_, others)) => are_same(recorded.as_slice(), others),
        None => false,
    }
}

fn are_same(recorded: &[u64], others: &[u64]) -> bool
    ensures { IsTrue result ↔ recorded.now ≡ others.now }
{
    match (recorded, others) {
        ([], []) => true,
        ([first, left @ ..], [other, rest @ ..]) => *first == *other && are_same(left, rest),
        _ => false,
    }
}
