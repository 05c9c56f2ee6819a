//! One instruction of a hart, with the times that it moves.
ghost use Rattle.std.specs.Prelude.{◌≡◌, None};

use crate::common::Common;
use crate::holding::may_go_on;
use crate::loading::load;
use crate::promise::mind;
use crate::storing::{exchange, store};
use crate::timed_hart::TimedHart;
use access_times::{Kind, Operation, operation_of};
use execution::ScriptedStep;
use memory_order::{Registers, used_registers};
use pages::OutOfMemory;
use round_schedule::Stepped;
use rv64_decode::{FenceMode, Instr};

/// What came of a hart's next step.
#[derive(Clone, Copy)]
pub(crate) enum Advance {
    /// It did a memory operation.
    Operated,
    /// It did another instruction, or stopped.
    Went,
    /// It waits until a store that it holds is in memory.
    Waits,
    /// It had stopped before.
    HasStopped,
}

/// A hart's next step in a round. Where it is forced, it doesn't wait.
#[inline]
pub(crate) fn step(
    hart: &mut TimedHart,
    common: &mut Common,
    round: u32,
    forced: bool,
) -> Result<Advance, OutOfMemory> {
    for fence in &common.fences {
        if fence.pc == hart.state.pc {
            hart.timing
                .pass_fence(fence.before, fence.after, FenceMode::Normal);
        }
    }
    if let Some(promise) = common.promise {
        if let Some(advance) = mind(hart, common, promise, round, forced)? {
            return Ok(advance);
        }
    }
    if hart.state.stop.is_some() {
        return Ok(Advance::HasStopped);
    }
    let Some(i) = common.memory.instruction_at(hart.state.pc) else {
        return stop(hart, common, round);
    };
    match operation_of(&hart.state, &i) {
        Some(operation) => {
            if !may_go_on(&mut hart.timing, common, &operation, forced)? {
                return Ok(Advance::Waits);
            }
            operate(hart, common, round, &used_registers(&i), &operation)
        }
        None => compute(hart, common, round, &i),
    }
}

/// A hart that has no next instruction stops.
#[inline(never)]
fn stop(hart: &mut TimedHart, common: &mut Common, round: u32) -> Result<Advance, OutOfMemory>
    requires { hart.old.state.stop ≡ None }
{
    let _answer = common
        .memory
        .serve(&mut hart.state, hart.timing.number, round)?;
    ended(hart, common, round)
}

/// A hart has stopped.
pub(crate) fn ended(
    hart: &TimedHart,
    common: &mut Common,
    round: u32,
) -> Result<Advance, OutOfMemory> {
    common.note_step(scripted(hart, round, None, false))?;
    Ok(Advance::Went)
}

/// The step of a script.
pub(crate) fn scripted(
    hart: &TimedHart,
    round: u32,
    number: Option<u64>,
    holds: bool,
) -> ScriptedStep {
    ScriptedStep {
        hart: hart.timing.number,
        round,
        number,
        holds,
    }
}

/// An instruction that is no memory operation.
fn compute(
    hart: &mut TimedHart,
    common: &mut Common,
    round: u32,
    i: &Instr,
) -> Result<Advance, OutOfMemory>
    requires { hart.old.state.stop ≡ None }
{
    let answer = common
        .memory
        .serve(&mut hart.state, hart.timing.number, round)?;
    if let Stepped::Done(_) = answer {
        let _event = common.note_event();
        hart.timing.views.compute(&used_registers(i));
    }
    if let Instr::Fence {
        before,
        after,
        mode,
    } = *i
    {
        hart.timing.pass_fence(before, after, mode);
    }
    common.note_step(scripted(hart, round, None, false))?;
    Ok(Advance::Went)
}

/// A memory operation.
#[inline]
fn operate(
    hart: &mut TimedHart,
    common: &mut Common,
    round: u32,
    registers: &Registers,
    operation: &Operation,
) -> Result<Advance, OutOfMemory>
    requires { hart.old.state.stop ≡ None }
{
    match operation.kind {
        Kind::Load | Kind::LoadReserved => load(hart, common, round, registers, operation),
        Kind::Store => store(hart, common, round, registers, operation),
        Kind::StoreConditional | Kind::Atomic => {
            exchange(hart, common, round, registers, operation)
        }
    }
}

/// Counts a memory operation.
#[inline]
pub(crate) fn count(hart: &mut TimedHart, common: &mut Common) {
    hart.timing.operations = hart.timing.operations.wrapping_add(1);
    common.operations = common.operations.wrapping_add(1);
}
