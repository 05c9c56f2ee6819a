//! Loads and LRs.
use access_times::{Bytes, Kind, Operation};
use hart_step::{Stop, sign_extended, stop_code};
use hart_walks::{
    Against, Choice, Mode, Walk, choices, newest_choice, number_from, private_number, sources_at,
};
use memory_order::{Registers, used_registers};
use pages::{Fault, OutOfMemory};
use run_states::{KnownDoubleword, RunState};
use rv64_decode::Instr;
use store_lists::{ByteSources, Deed, LATER, Reserved, Time, Touch};

/// A load that a run comes to.
#[derive(Clone, Copy)]
struct Loading<'a> {
    i: &'a Instr,
    operation: &'a Operation,
    registers: Registers,
    bytes: Bytes,
    /// What the hart knows of its bytes.
    known: KnownDoubleword,
    /// Before which time it can't be.
    bound: Time,
}

/// How it is done.
#[derive(Clone, Copy)]
struct Read {
    time: Time,
    /// The number that is read; 0 where it isn't known.
    number: u64,
    /// From where, if the bytes are shared.
    sources: Option<ByteSources>,
}

/// A fault ends a run.
pub(crate) fn fault(walk: &mut Walk, state: &RunState, fault: Fault) -> Result<bool, OutOfMemory> {
    let code = stop_code(fault);
    walk.stop(state, Stop { code, value: 0 })?;
    Ok(false)
}

/// A load or an LR. Answers whether the run is followed further at once.
pub(crate) fn load(
    walk: &mut Walk,
    against: Against<'_>,
    state: &mut RunState,
    i: &Instr,
    operation: &Operation,
) -> Result<bool, OutOfMemory> {
    let registers = used_registers(i);
    if !state.bounds.is_known(registers.address) {
        walk.break_off(against, state)?;
        return Ok(false);
    }
    let pages = against.guest.code.pages();
    if let Err(why) = pages.read(operation.address, operation.width) {
        return fault(walk, state, why);
    }
    let bytes = Bytes::of(operation.address, operation.width);
    walk.sharing.touch(against.hart, bytes, Touch::Load)?;
    walk.sharing.note_load(against.hart, state.hart.pc, bytes)?;
    let known = state.known.at(bytes.doubleword);
    let bound = state
        .bounds
        .of_load(&registers, operation, &known, bytes.mask);
    let load = Loading {
        i,
        operation,
        registers,
        bytes,
        known,
        bound,
    };
    if walk.sharing.is_shared(bytes.doubleword) {
        load_shared(walk, against, state, &load)
    } else {
        load_private(walk, against, state, &load)
    }
}

/// Of bytes that no other hart touches.
fn load_private(
    walk: &mut Walk,
    against: Against<'_>,
    state: &mut RunState,
    load: &Loading<'_>,
) -> Result<bool, OutOfMemory> {
    let reserves = load.operation.kind == Kind::LoadReserved;
    if reserves && !walk.meet(against, state, true)? {
        return Ok(false);
    }
    let read = Read {
        time: load.bound,
        number: private_number(against, &load.known, load.bytes, load.operation.address),
        sources: None,
    };
    read_by(walk, state, load, read)?;
    Ok(true)
}

/// Of shared bytes: at each time at which other bytes are read, or later.
fn load_shared(
    walk: &mut Walk,
    against: Against<'_>,
    state: &mut RunState,
    load: &Loading<'_>,
) -> Result<bool, OutOfMemory> {
    let is_resumed = state.course.is_resumed;
    if !walk.meet(against, state, load.operation.kind == Kind::LoadReserved)? {
        return Ok(false);
    }
    if walk.mode == Mode::Last {
        return load_last(walk, against, state, load);
    }
    let found = choices_of(walk, against, state, load, is_resumed)?;
    if found.is_empty() {
        read_later(walk, state, load)?;
        return Ok(true);
    }
    let mut later = state.copy()?;
    read_later(walk, &mut later, load)?;
    walk.put_off(later)?;
    choose(walk, against, state, load, &found)?;
    Ok(false)
}

/// What a load can read: all, or where it was looked at against a list that was one store shorter what that store adds.
fn choices_of(
    walk: &mut Walk,
    against: Against<'_>,
    state: &RunState,
    load: &Loading<'_>,
    is_resumed: bool,
) -> Result<Vec<Choice>, OutOfMemory> {
    if load.bound == LATER {
        return Ok(Vec::new(walk.alloc));
    }
    walk.look_back(state, load.bound, Some(load.bytes.doubleword))?;
    if is_resumed {
        newest_choice(walk.alloc, against, &load.known, load.bytes)
    } else {
        choices(walk.alloc, against, &load.known, load.bytes, load.bound)
    }
}

/// The load comes later than the store that comes next.
fn read_later(
    walk: &mut Walk,
    state: &mut RunState,
    load: &Loading<'_>,
) -> Result<(), OutOfMemory> {
    walk.settle(state, true)?;
    let read = Read {
        time: LATER,
        number: 0,
        sources: None,
    };
    read_by(walk, state, load, read)
}

/// Puts a run off for each choice. The earliest is to be followed first, so it is added last.
fn choose(
    walk: &mut Walk,
    against: Against<'_>,
    begun: &RunState,
    load: &Loading<'_>,
    found: &[Choice],
) -> Result<(), OutOfMemory> {
    for choice in found.iter().rev() {
        let mut state = begun.copy()?;
        let read = read_at(against, load, choice.time, choice.sources);
        read_by(walk, &mut state, load, read)?;
        walk.put_off(state)?;
    }
    Ok(())
}

/// What is read from these sources.
fn read_at(against: Against<'_>, load: &Loading<'_>, time: Time, sources: ByteSources) -> Read {
    let address = load.operation.address;
    Read {
        time,
        number: number_from(against, &load.known, load.bytes, address, &sources),
        sources: Some(sources),
    }
}

/// Where the last of memory alone is read.
fn load_last(
    walk: &mut Walk,
    against: Against<'_>,
    state: &mut RunState,
    load: &Loading<'_>,
) -> Result<bool, OutOfMemory> {
    let sources = sources_at(against, &load.known, load.bytes, load.bound);
    let read = read_at(against, load, load.bound, sources);
    read_by(walk, state, load, read)?;
    Ok(true)
}

/// The load is done.
fn read_by(
    walk: &mut Walk,
    state: &mut RunState,
    load: &Loading<'_>,
    read: Read,
) -> Result<(), OutOfMemory> {
    let deed = Deed {
        step: state.hart.done,
        number: Some(read.number),
        holds: false,
        time: read.time,
        is_listed: false,
    };
    walk.note(state, deed)?;
    state.bounds.steer(state.bounds.of(load.registers.address));
    state
        .bounds
        .load(&load.registers, load.operation, read.time);
    let mut known = load.known;
    known.load(load.bytes, read.time, read.sources);
    state.known.set(known)?;
    if load.operation.kind == Kind::LoadReserved {
        state.reserved = Some(Reserved {
            address: load.operation.address,
            width: load.operation.width,
            sources: read.sources.unwrap_or([0; 8]),
            time: read.time,
            is_shared: walk.sharing.is_shared(load.bytes.doubleword),
        });
    }
    let value = loaded(load.i, load.operation, read.number);
    state.hart.go_on(load.registers.destination, value);
    state.set_register(load.registers.destination, value, read.time);
    Ok(())
}

/// What a register holds that a number in memory was loaded to.
fn loaded(i: &Instr, operation: &Operation, number: u64) -> u64 {
    match *i {
        Instr::Lbu { .. } | Instr::Lhu { .. } | Instr::Lwu { .. } => number,
        _ => sign_extended(operation.width, number),
    }
}
