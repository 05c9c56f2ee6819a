//! A store that comes early: it is put in memory first, and its hart has to do it afterwards.
ghost use Rattle.std.specs.Prelude.{◌≡◌, None};

use crate::common::Common;
use crate::holding::may_go_on;
use crate::loading::read_by;
use crate::stepping::{Advance, count, scripted};
use crate::timed_hart::TimedHart;
use access_times::{
    Bytes, Kind, Maker, Operation, Promise, PutStore, Stage, operation_of, shift_of,
};
use departures::{Deed, Departure, Way};
use memory_order::{Registers, used_registers};
use pages::{OutOfMemory, Store};
use round_schedule::{Access, Stepped};
use rv64_decode::Instr;

/// For how many steps of all harts a hart waits at most once its early store is in memory.
const LONGEST_WAIT: u64 = 10_000;

/// What a hart does where a store comes early, if it is something else than its next instruction as ever.
#[inline(never)]
pub(crate) fn mind(
    hart: &mut TimedHart,
    common: &mut Common,
    promise: Promise,
    round: u32,
    forced: bool,
) -> Result<Option<Advance>, OutOfMemory> {
    if hart.state.stop.is_some() {
        common.promise = Some(promise.stopped(hart.timing.number));
        return Ok(Some(Advance::HasStopped));
    }
    if promise.hart != hart.timing.number {
        return Ok(None);
    }
    let put = match promise.stage {
        Stage::Ahead if hart.state.done == promise.early.before => put(hart, common, promise)?,
        Stage::Put(put) => put,
        _ => return Ok(None),
    };
    let others = common.operations.wrapping_sub(hart.timing.operations);
    if others < put.until && common.steps < put.until_step && !forced {
        return Ok(Some(Advance::Waits));
    }
    go_on(hart, common, promise, put, Going { round, forced })
}

/// In which round a hart goes on, and whether it is forced to.
#[derive(Clone, Copy)]
struct Going {
    round: u32,
    forced: bool,
}

/// The store is put in memory.
fn put(hart: &TimedHart, common: &mut Common, promise: Promise) -> Result<PutStore, OutOfMemory> {
    let (number, store) = (hart.timing.number, promise.early.store);
    let is_conditional = promise.early.kind == Kind::StoreConditional;
    let lacks_reservation = is_conditional && !common.memory.has_reservation(number, store);
    let before = common.memory.doubleword(store.address);
    common.memory.put(number, store)?;
    let maker = Maker {
        hart: number,
        is_plain: false,
        depends: 0,
    };
    let bytes = Bytes::of(store.address, store.width);
    let time = common.history.add(bytes, before, maker)?;
    let others = common.operations.wrapping_sub(hart.timing.operations);
    let put = PutStore {
        time,
        before,
        until: others.saturating_add(promise.early.wait),
        until_step: common.steps.saturating_add(LONGEST_WAIT),
        lacks_reservation,
    };
    common.promise = Some(promise.at(Stage::Put(put)));
    Ok(put)
}

/// The hart of a store that is in memory goes on: it does this store, or comes to what is before it.
fn go_on(
    hart: &mut TimedHart,
    common: &mut Common,
    promise: Promise,
    put: PutStore,
    going: Going,
) -> Result<Option<Advance>, OutOfMemory>
    requires { hart.old.state.stop ≡ None }
{
    let next = match common.memory.instruction_at(hart.state.pc) {
        Some(i) => operation_of(&hart.state, &i).map(|operation| (i, operation)),
        None => None,
    };
    if hart.state.done != promise.step {
        return Ok(match next {
            Some((i, operation)) => pass(hart, common, promise, put, &i, &operation),
            None => None,
        });
    }
    let Some((i, operation)) = next else {
        return Ok(give_up(common, promise));
    };
    if !may_go_on(&mut hart.timing, common, &operation, going.forced)? {
        return Ok(Some(Advance::Waits));
    }
    let is_fulfilled = fulfil(
        hart,
        common,
        promise,
        put,
        going.round,
        &used_registers(&i),
        &operation,
    )?;
    let stage = if is_fulfilled {
        Stage::Fulfilled
    } else {
        Stage::Broken
    };
    common.promise = Some(promise.at(stage));
    Ok(Some(Advance::Operated))
}

/// The hart doesn't do the store.
fn give_up(common: &mut Common, promise: Promise) -> Option<Advance> {
    common.promise = Some(promise.at(Stage::Broken));
    Some(Advance::Waits)
}

/// The hart comes to an operation before the store. The LR of an SC reads what was there before the SC, if it can.
fn pass(
    hart: &TimedHart,
    common: &mut Common,
    promise: Promise,
    put: PutStore,
    i: &Instr,
    operation: &Operation,
) -> Option<Advance> {
    if promise.early.lets_pass(operation) {
        return None;
    }
    let views = &hart.timing.views;
    let least = views
        .least_of_load(used_registers(i).address, operation)
        .max(views.met_at(operation.address, operation.width));
    if !promise.early.is_reserved_by(operation) || least >= put.time || common.held > 0 {
        return give_up(common, promise);
    }
    common.promise = Some(promise.at(Stage::Put(PutStore {
        lacks_reservation: false,
        ..put
    })));
    None
}

/// The hart does its next operation, which has to be the store. Says whether it is, and can be done so early.
fn fulfil(
    hart: &mut TimedHart,
    common: &mut Common,
    promise: Promise,
    put: PutStore,
    round: u32,
    registers: &Registers,
    operation: &Operation,
) -> Result<bool, OutOfMemory>
    requires { hart.old.state.stop ≡ None }
{
    let least = hart.timing.views.least_of_store(registers, operation);
    let is_it = promise.early.is_at(operation) && operation.kind == promise.early.kind;
    if !is_it || least >= put.time || put.lacks_reservation {
        return Ok(false);
    }
    let pc = hart.state.pc;
    let Stepped::Done(Some(access)) = do_store(hart, common, promise, put, round)? else {
        return Ok(false);
    };
    if written_by(&access) != Some(promise.early.store.value) {
        return Ok(false);
    }
    let views = &mut hart.timing.views;
    if operation.kind == Kind::Store {
        views.address(registers.address);
        views.store(operation.address, operation.width, put.time)?;
    } else {
        views.exchange(registers, operation, put.time)?;
    }
    count(hart, common);
    let holds = operation.kind == Kind::StoreConditional;
    common.note_step(scripted(hart, round, read_by(&access), holds))?;
    note(hart, common, promise, pc, access, (put.time, least))?;
    Ok(true)
}

/// Notes that the hart did the store, with its time and the one that it had to be behind.
fn note(
    hart: &TimedHart,
    common: &mut Common,
    promise: Promise,
    pc: u64,
    access: Access,
    times: (u32, u32),
) -> Result<(), OutOfMemory> {
    common.note_departure(Departure {
        hart: promise.hart,
        step: promise.step,
        way: Way::Early(promise.early),
    })?;
    let event = common.note_event();
    let _number = common.note_deed(Deed {
        hart: hart.timing.number,
        pc,
        access,
        earliest: times.0,
        at: times.0,
        behind: times.1,
        event,
    })?;
    Ok(())
}

/// The hart does its next instruction, the store, on memory as it was where it was put. Memory stays as it is.
fn do_store(
    hart: &mut TimedHart,
    common: &mut Common,
    promise: Promise,
    put: PutStore,
    round: u32,
) -> Result<Stepped, OutOfMemory>
    requires { hart.old.state.stop ≡ None }
{
    let (number, store) = (hart.timing.number, promise.early.store);
    if promise.early.kind == Kind::Store {
        return common.memory.hold_back(&mut hart.state);
    }
    if promise.early.kind == Kind::StoreConditional {
        common.memory.reserve(number, store);
    }
    let laid = Store {
        value: put.before >> shift_of(store.address),
        ..store
    };
    common.memory.serve_on(&mut hart.state, number, round, laid)
}

/// The number that an access wrote.
fn written_by(access: &Access) -> Option<u64> {
    match *access {
        Access::Store { written, .. } | Access::Atomic { written, .. } => Some(written),
        Access::StoreConditional { written, .. } => written,
        Access::Load { .. } | Access::LoadReserved { .. } | Access::Fence { .. } => None,
    }
}
