ghost use Rattle.std.specs.Prelude.{◌≡◌, ◌<◌, ◌≤◌, ◌+◌, ◌^◌, ◌⊎◌, [], map, Err, IfOk, IfErr, OnOk};
ghost use Rattle.host_io.specs.declared.error.RunError.TheVariants as refusals;
ghost use Rattle.round_planner.specs.Quotas.{quotas_of};
ghost use Rattle.hart_step.specs.Words.{words_of};
ghost use Rattle.guest_turns.specs.TurnHarts.{turns_in_round};
ghost use Rattle.machine.specs.Machine.{Running};
ghost use Rattle.machine.specs.Untraced.{IsUntraced};
ghost use Rattle.round_schedule.specs.Bounds.{AreNoWorkers};

use guest_rounds::{Crew, MANY_LINES};
use guest_turns::TurnVisitor;
use hart_rounds::LogForm;
use hart_step::Hart;
use host_io::RunError;
use machine::{MachineFields, UntracedMachine};
use pages::OutOfMemory;
use parallel_phase::Open;
use round_schedule::MOST_WORKERS;
use std::alloc::Global;
use std::mem;
use std::sync::Wait;
use std::thread::Threads;

/// Shows a visitor the harts along the serial turns of the next round of the run of which this is the machine without its trace: of
/// each hart, in hart order, what it is before each instruction of its turn, and as the turn leaves it, its stop told. One that has no
/// turn is shown once, as its part of the parallel phase left it. The round is done once, on `workers` threads. It may wait.
///
/// # Errors
///
/// `WorkersOutOfRange`, `RoundsExhausted` where 4,294,967,295 rounds were done before, and `OutOfMemory`.
pub fn visit_turns<V: TurnVisitor, R: Threads + Wait + Sync>(
    rt: &R,
    machine: UntracedMachine,
    workers: u32,
    visitor: &mut V,
) -> Result<(), RunError>
    requires run { (m : Running) × IsUntraced m machine }
    ensures turns { (m : Running) → IsUntraced m machine → OnOk result ((first : V) →
        V.knows first visitor.old [] [] → V.knows first visitor.new
        (turns_in_round (words_of m.code) m.plan.budget (quotas_of m.plan) m.state) []) }
    ensures workers { AreNoWorkers workers → result ≡ Err refusals.WorkersOutOfRange }
    ensures exhausted { 1 ≤ workers → workers ≤ MOST_WORKERS → machine.rounds + 1 ≡ 2 ^ 32 →
        result ≡ Err refusals.RoundsExhausted }
    ensures refused { 1 ≤ workers → workers ≤ MOST_WORKERS → machine.rounds + 1 < 2 ^ 32 →
        IfErr result (λ e. e ≡ refusals.OutOfMemory) }
{
    if workers < 1 || workers > MOST_WORKERS {
        return Err(RunError::WorkersOutOfRange);
    }
    if machine.rounds() == u32::MAX {
        return Err(RunError::RoundsExhausted);
    }
    let crew = Crew {
        rt,
        workers,
        gate: &Open,
        least_lines: MANY_LINES,
        form: LogForm::Counted,
    };
    let MachineFields {
        guest,
        plan,
        rounds,
    } = machine.into_fields();
    Ok(guest_turns::visit_turns(&crew, guest, &plan, rounds, visitor)?)
}

/// The harts that `visit_turns` shows, turn by turn. It may wait.
///
/// # Errors
///
/// Those of `visit_turns`.
pub fn harts_in_turns<R: Threads + Wait + Sync>(
    rt: &R,
    machine: UntracedMachine,
    workers: u32,
) -> Result<Vec<Vec<Hart>>, RunError>
    requires run { (m : Running) × IsUntraced m machine }
    ensures turns { (m : Running) → IsUntraced m machine →
        IfOk result (λ v. map (λ xs. xs.items) v.items
        ≡ turns_in_round (words_of m.code) m.plan.budget (quotas_of m.plan) m.state) }
    ensures workers { AreNoWorkers workers → result ≡ Err refusals.WorkersOutOfRange }
    ensures exhausted { 1 ≤ workers → workers ≤ MOST_WORKERS → machine.rounds + 1 ≡ 2 ^ 32 →
        result ≡ Err refusals.RoundsExhausted }
    ensures refused { 1 ≤ workers → workers ≤ MOST_WORKERS → machine.rounds + 1 < 2 ^ 32 →
        IfErr result (λ e. e ≡ refusals.OutOfMemory) }
{
    let alloc = machine.pages().allocator();
    let mut kept = Kept {
        alloc,
        turns: Vec::new(alloc),
        along: Vec::new(alloc),
    };
    visit_turns(rt, machine, workers, &mut kept)?;
    Ok(kept.turns)
}

/// Keeps the harts that it is shown.
#[derive(Drop)]
struct Kept {
    alloc: Global,
    /// Those along the turns that are over.
    turns: Vec<Vec<Hart>>,
    /// Those along the next one.
    along: Vec<Hart>,
}

impl TurnVisitor for Kept {
    ghost knows = { λ first v turns along.
        (map (λ xs. xs.items) v.turns.items ≡ turns) × (v.along.items ≡ along) };

    fn before_instruction(
        &mut self,
        _number: u32,
        _count: u32,
        hart: &Hart,
    ) -> Result<(), OutOfMemory> {
        self.along.push(*hart)?;
        Ok(())
    }

    fn after_turn(&mut self, _number: u32, _count: u32, hart: &Hart) -> Result<(), OutOfMemory> {
        self.along.push(*hart)?;
        let along = mem::replace(&mut self.along, Vec::new(self.alloc));
        self.turns.push(along)?;
        Ok(())
    }
}
