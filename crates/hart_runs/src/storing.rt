//! Plain stores.
use crate::listing::{Put, Writing, put_private, put_shared};
use crate::loading::fault;
use access_times::{Bytes, Operation};
use hart_step::cut_to;
use hart_walks::{Against, Walk};
use memory_order::{Registers, used_registers};
use pages::OutOfMemory;
use run_states::RunState;
use rv64_decode::Instr;
use store_lists::Touch;

/// A plain store. Answers whether the run is followed further at once.
pub(crate) fn store(
    walk: &mut Walk,
    against: Against<'_>,
    state: &mut RunState,
    i: &Instr,
    operation: &Operation,
) -> Result<bool, OutOfMemory> {
    let registers = used_registers(i);
    if !state.bounds.is_known(registers.address) {
        walk.break_off(against, state)?;
        return Ok(false);
    }
    let pages = against.guest.code.pages();
    if let Err(why) = pages.check_store(operation.address, operation.width) {
        return fault(walk, state, why);
    }
    state.course.is_resumed = false;
    let put = put_of(state, operation, registers, Writing::Plain);
    walk.sharing.touch(against.hart, put.bytes, Touch::Store)?;
    if walk.sharing.is_shared(put.bytes.doubleword) {
        put_shared(walk, against, state, &put)
    } else {
        put_private(walk, against, state, &put)
    }
}

/// What a store, an SC or an AMO is about to do, as far as its hart has come.
pub(crate) fn put_of(
    state: &RunState,
    operation: &Operation,
    registers: Registers,
    writing: Writing,
) -> Put {
    let bytes = Bytes::of(operation.address, operation.width);
    let known = state.known.at(bytes.doubleword);
    let (address, data) = (
        state.bounds.of(registers.address),
        state.bounds.of(registers.value),
    );
    Put {
        operation: *operation,
        registers,
        bytes,
        known,
        value: cut_to(operation.width, state.hart.reg(registers.value)),
        data,
        depends: address.max(data),
        bound: state
            .bounds
            .of_store(&registers, operation, &known, bytes.mask),
        writing,
    }
}
