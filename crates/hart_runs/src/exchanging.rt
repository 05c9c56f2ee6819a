//! SCs and AMOs.
use crate::listing::{Put, Writing, put_private, put_shared};
use crate::loading::fault;
use crate::storing::put_of;
use access_times::{Bytes, Operation};
use hart_walks::{Against, Mode, Walk};
use memory_order::{Registers, used_registers};
use pages::OutOfMemory;
use run_states::{RunState, by_pairing};
use rv64_decode::{Atomic, Instr};
use store_lists::{Reserved, Touch};

/// An SC or an AMO. Answers whether the run is followed further at once.
pub(crate) fn exchange(
    walk: &mut Walk,
    against: Against<'_>,
    state: &mut RunState,
    i: &Instr,
    operation: &Operation,
) -> Result<bool, OutOfMemory> {
    let registers = used_registers(i);
    if !state.bounds.is_known(registers.address) {
        walk.break_off(against, state)?;
        return Ok(false);
    }
    let pages = against.guest.code.pages();
    if let Err(why) = pages.check_store(operation.address, operation.width) {
        return fault(walk, state, why);
    }
    match i.atomic() {
        Some(
            Atomic::Operation {
                operation: kind,
                width,
                ..
            },
        ) => {
            let writing = Writing::Atomic(kind, width);
            operate(walk, against, state, operation, registers, writing)
        }
        _ => conditional(walk, against, state, operation, registers),
    }
}

/// An AMO.
fn operate(
    walk: &mut Walk,
    against: Against<'_>,
    state: &mut RunState,
    operation: &Operation,
    registers: Registers,
    writing: Writing,
) -> Result<bool, OutOfMemory> {
    let bytes = Bytes::of(operation.address, operation.width);
    walk.sharing.touch(against.hart, bytes, Touch::Exchange)?;
    let put = put_of(state, operation, registers, writing);
    if walk.sharing.is_shared(bytes.doubleword) {
        if !walk.meet(against, state, false)? {
            return Ok(false);
        }
        put_shared(walk, against, state, &put)
    } else {
        put_private(walk, against, state, &put)
    }
}

/// An SC: it fails, or it writes, if its hart has the reservation.
fn conditional(
    walk: &mut Walk,
    against: Against<'_>,
    state: &mut RunState,
    operation: &Operation,
    registers: Registers,
) -> Result<bool, OutOfMemory> {
    let was_resumed = state.course.is_resumed;
    state.course.is_resumed = false;
    let Some(reserved) = reservation(state, operation) else {
        fail(state, &registers);
        return Ok(true);
    };
    if walk.mode == Mode::Last {
        return Ok(false);
    }
    if !was_resumed {
        let mut failed = state.copy()?;
        fail(&mut failed, &registers);
        walk.put_off(failed)?;
    }
    let mut put = put_of(state, operation, registers, Writing::Conditional(reserved));
    put.bound = put.bound.max(by_pairing(reserved.time));
    walk.sharing.touch(against.hart, put.bytes, Touch::Store)?;
    if walk.sharing.is_shared(put.bytes.doubleword) {
        put_shared(walk, against, state, &put)
    } else {
        put_private(walk, against, state, &put)
    }
}

/// The hart's reservation, where it is of just an SC's bytes.
fn reservation(state: &RunState, operation: &Operation) -> Option<Reserved> {
    let reserved = state.reserved?;
    if reserved.address == operation.address && reserved.width == operation.width {
        Some(reserved)
    } else {
        None
    }
}

/// An SC fails. It is no memory operation, and its register depends on what it did before (manual, section 14.3).
fn fail(state: &mut RunState, registers: &Registers) {
    let time = state.bounds.of(registers.destination);
    state.bounds.steer(state.bounds.of(registers.address));
    state.reserved = None;
    state.hart.go_on(registers.destination, 1);
    state.set_register(registers.destination, 1, time);
}
