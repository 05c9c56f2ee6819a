//! Stores, which may be held, AMOs and SCs.
ghost use Rattle.std.specs.Prelude.{◌≡◌, ◌<◌, None};

use crate::common::Common;
use crate::loading::read_by;
use crate::stepping::{Advance, count, ended, scripted};
use crate::timed_hart::TimedHart;
use access_times::{Bytes, HeldStore, Kind, Maker, Operation};
use departures::{Deed, Departure, Way};
use memory_order::Registers;
use pages::{OutOfMemory, Store};
use round_schedule::{Access, Stepped};

/// A plain store: it goes to memory at once, or the hart holds it.
pub(crate) fn store(
    hart: &mut TimedHart,
    common: &mut Common,
    round: u32,
    registers: &Registers,
    operation: &Operation,
) -> Result<Advance, OutOfMemory>
    requires { hart.old.state.stop ≡ None }
{
    let depends = hart
        .timing
        .views
        .of(registers.address)
        .max(hart.timing.views.of(registers.value));
    if let Some(slot) = hart.timing.free_slot() {
        if let Some(operations) = common.late(hart.timing.number, hart.state.done) {
            let hold = Hold {
                slot,
                depends,
                operations,
            };
            return put_off(hart, common, round, registers, hold);
        }
    }
    let pc = hart.state.pc;
    let before = common.memory.doubleword(operation.address);
    let answer = common
        .memory
        .serve(&mut hart.state, hart.timing.number, round)?;
    let Stepped::Done(Some(access)) = answer else {
        return ended(hart, common, round);
    };
    let maker = Maker {
        hart: hart.timing.number,
        is_plain: true,
        depends,
    };
    let bytes = Bytes::of(operation.address, operation.width);
    let time = common.history.add(bytes, before, maker)?;
    let behind = behind_which(hart, common, registers, operation);
    hart.timing.views.address(registers.address);
    hart.timing
        .views
        .store(operation.address, operation.width, time)?;
    count(hart, common);
    common.note_step(scripted(hart, round, None, false))?;
    let _deed = note(hart, common, pc, access, Times { time, behind })?;
    Ok(Advance::Operated)
}

/// The time of a store, and the one that it has to be behind.
#[derive(Clone, Copy)]
struct Times {
    time: u32,
    behind: u32,
}

/// Behind which time a store has to be that a hart is about to do, where that is noted.
#[inline]
fn behind_which(
    hart: &TimedHart,
    common: &Common,
    registers: &Registers,
    operation: &Operation,
) -> u32 {
    match &common.record {
        Some(_) => hart.timing.views.least_of_store(registers, operation),
        None => 0,
    }
}

/// Notes that a hart did a store, which has a time. Gives the number of the deed.
#[inline]
fn note(
    hart: &TimedHart,
    common: &mut Common,
    pc: u64,
    access: Access,
    times: Times,
) -> Result<usize, OutOfMemory> {
    let event = common.note_event();
    common.note_deed(Deed {
        hart: hart.timing.number,
        pc,
        access,
        earliest: times.time,
        at: times.time,
        behind: times.behind,
        event,
    })
}

/// How a store is held.
#[derive(Clone, Copy)]
struct Hold {
    /// Its slot among the stores that the hart holds.
    slot: usize,
    /// The time that its address and its data depend on.
    depends: u32,
    /// For how many operations of the other harts.
    operations: u64,
}

/// A plain store that the hart holds.
fn put_off(
    hart: &mut TimedHart,
    common: &mut Common,
    round: u32,
    registers: &Registers,
    hold: Hold,
) -> Result<Advance, OutOfMemory>
    requires running { hart.old.state.stop ≡ None }
    requires slot { hold.slot < 4 }
{
    let pc = hart.state.pc;
    let answer = common.memory.hold_back(&mut hart.state)?;
    let Stepped::Done(Some(access)) = answer else {
        return ended(hart, common, round);
    };
    hart.timing.views.address(registers.address);
    count(hart, common);
    common.note_step(scripted(hart, round, None, false))?;
    common.note_departure(Departure {
        hart: hart.timing.number,
        step: access.place(),
        way: Way::Late(hold.operations),
    })?;
    // It gets its time when it goes to memory.
    let times = Times {
        time: u32::MAX,
        behind: 0,
    };
    let deed = note(hart, common, pc, access, times)?;
    let Access::Store {
        width,
        address,
        written,
        ..
    } = access
    else {
        return Ok(Advance::Operated);
    };
    let others = common.operations.wrapping_sub(hart.timing.operations);
    hart.timing.held[hold.slot] = Some(HeldStore {
        store: Store {
            address,
            width,
            value: written,
        },
        depends: hold.depends,
        until: others.saturating_add(hold.operations),
        before_reads: false,
        before_writes: false,
        deed,
    });
    common.held = common.held.saturating_add(1);
    Ok(Advance::Operated)
}

/// An AMO or an SC.
pub(crate) fn exchange(
    hart: &mut TimedHart,
    common: &mut Common,
    round: u32,
    registers: &Registers,
    operation: &Operation,
) -> Result<Advance, OutOfMemory>
    requires { hart.old.state.stop ≡ None }
{
    let pc = hart.state.pc;
    let before = common.memory.doubleword(operation.address);
    let answer = common
        .memory
        .serve(&mut hart.state, hart.timing.number, round)?;
    let Stepped::Done(Some(access)) = answer else {
        return ended(hart, common, round);
    };
    count(hart, common);
    let wrote = access.stores();
    let holds = wrote && operation.kind == Kind::StoreConditional;
    common.note_step(scripted(hart, round, read_by(&access), holds))?;
    if !wrote {
        let _event = common.note_event();
        hart.timing.views.address(registers.address);
        return Ok(Advance::Operated);
    }
    let maker = Maker {
        hart: hart.timing.number,
        is_plain: false,
        depends: 0,
    };
    let bytes = Bytes::of(operation.address, operation.width);
    let time = common.history.add(bytes, before, maker)?;
    let behind = behind_which(hart, common, registers, operation);
    hart.timing.views.exchange(registers, operation, time)?;
    let _deed = note(hart, common, pc, access, Times { time, behind })?;
    Ok(Advance::Operated)
}
