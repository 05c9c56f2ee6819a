//! One instruction of a run.
ghost use Rattle.std.specs.Prelude.{◌≡◌, None};

use crate::calling::call;
use crate::exchanging::exchange;
use crate::loading::load;
use crate::storing::store;
use access_times::{Kind, operation_of};
use hart_step::{Buffered, step as step_hart};
use hart_walks::{Against, Walk};
use memory_order::used_registers;
use pages::OutOfMemory;
use round_schedule::Stepped;
use run_states::RunState;
use rv64_decode::Instr;
use store_lists::{LATER, add_once};

/// Does the next instruction of a run. Answers whether the run is followed further at once.
pub(crate) fn step(
    walk: &mut Walk,
    against: Against<'_>,
    state: &mut RunState,
) -> Result<bool, OutOfMemory> {
    let Some(i) = against.guest.code.instruction_at(state.hart.pc) else {
        return advance(walk, against, state);
    };
    if let Some(operation) = operation_of(&state.hart, &i) {
        return match operation.kind {
            Kind::Load | Kind::LoadReserved => load(walk, against, state, &i, &operation),
            Kind::Store => store(walk, against, state, &i, &operation),
            Kind::StoreConditional | Kind::Atomic => {
                exchange(walk, against, state, &i, &operation)
            }
        };
    }
    match i {
        Instr::Fence {
            before,
            after,
            mode,
        } => {
            add_once(&mut walk.fences, state.hart.pc)?;
            state.bounds.pass_fence(before, after, mode);
            let _access = state.hart.pass_fence(before, after, mode);
            Ok(true)
        }
        Instr::Ecall => call(walk, against, state),
        _ => compute(walk, against, state, &i),
    }
}

/// An instruction that computes, jumps or stops. A branch or an indirect jump on what isn't known ends what is known of the run.
fn compute(
    walk: &mut Walk,
    against: Against<'_>,
    state: &mut RunState,
    i: &Instr,
) -> Result<bool, OutOfMemory> {
    let registers = used_registers(i);
    let time = state
        .bounds
        .of(registers.first)
        .max(state.bounds.of(registers.second));
    if registers.steers {
        if time == LATER {
            walk.break_off(against, state)?;
            return Ok(false);
        }
        state.bounds.steer(time);
    }
    let goes_on = advance(walk, against, state)?;
    let left = if registers.carries { time } else { 0 };
    let value = state.hart.reg(registers.destination);
    state.set_register(registers.destination, value, left);
    Ok(goes_on)
}

/// Does the next instruction, which accesses no memory, as the instruction set has it.
fn advance(
    walk: &mut Walk,
    against: Against<'_>,
    state: &mut RunState,
) -> Result<bool, OutOfMemory> {
    if state.hart.stop.is_some() {
        return Ok(false);
    }
    let mut view = Buffered::new(walk.alloc, against.guest.code.pages());
    let answer = step_hart(&mut state.hart, &mut view)?;
    drop(view);
    match (answer, state.hart.stop) {
        (Stepped::Done(_), _) => Ok(true),
        (_, Some(stop)) => {
            walk.stop(state, stop)?;
            Ok(false)
        }
        (_, None) => Ok(false),
    }
}
