//! Loads and LRs, which may read old.
ghost use Rattle.std.specs.Prelude.{◌≡◌, None};

use crate::common::Common;
use crate::stepping::{Advance, count, ended, scripted};
use crate::timed_hart::{TimedHart, Timing};
use access_times::{Bytes, MOST_HELD, Operation, shift_of};
use departures::{Deed, Departure, Way};
use memory_order::Registers;
use pages::{OutOfMemory, Store};
use round_schedule::{Access, Stepped};

/// What a load sees, and when.
#[derive(Clone, Copy)]
struct Sighted {
    /// How many stores back it reads; `None` where it reads the newest.
    back: Option<u32>,
    /// As of which time it reads.
    at: u32,
    /// The doubleword that it reads, under the stores that the hart holds.
    seen: u64,
    /// Its time.
    time: u32,
    /// The latest store to its bytes that it meets.
    latest: u32,
}

/// What a hart's load sees: the newest, or where it departs the memory of an earlier time, but of none before what holds it back.
#[inline]
fn look(
    hart: &TimedHart,
    common: &mut Common,
    registers: &Registers,
    operation: &Operation,
    doubleword: u64,
) -> Sighted {
    let least = hart
        .timing
        .views
        .least_of_load(registers.address, operation);
    let met = hart.timing.views.met_at(operation.address, operation.width);
    let mut bytes = Bytes::of(operation.address, operation.width);
    if common.held > 0 {
        bytes = without_held(&hart.timing, bytes);
    }
    let now = common.history.now();
    let mut back = common.old(hart.timing.number, hart.state.done);
    let mut old = match back {
        Some(back) => common.history.time_before(bytes, least.max(met), back),
        None => None,
    };
    if let Some(promise) = &common.promise {
        if let Some(at) = promise.read_at(hart.timing.number, operation) {
            (back, old) = (None, Some(at));
        }
    }
    let at = old.unwrap_or(now);
    let sight = common
        .history
        .look(hart.timing.number, bytes, at, least.min(met), doubleword);
    let sighted = Sighted {
        back: if at == now { None } else { back },
        at,
        seen: sight.value,
        time: least.max(sight.time),
        latest: sight.latest,
    };
    if common.held > 0 {
        under_held(&hart.timing, operation, sighted)
    } else {
        sighted
    }
}

/// Those bytes that no store has which the hart holds.
fn without_held(timing: &Timing, bytes: Bytes) -> Bytes {
    let mut left = bytes;
    for place in 0..MOST_HELD {
        if let Some(held) = timing.held[place] {
            left = left.without(held.bytes());
        }
    }
    left
}

/// What a load sees under the stores that the hart holds.
fn under_held(timing: &Timing, operation: &Operation, sighted: Sighted) -> Sighted {
    let bytes = Bytes::of(operation.address, operation.width);
    let mut seen = sighted.seen;
    let mut time = sighted.time;
    for place in 0..MOST_HELD {
        if let Some(held) = timing.held[place] {
            if held.bytes().meet(bytes) {
                seen = held.over(bytes, seen);
                time = time.max(held.depends);
            }
        }
    }
    Sighted {
        seen,
        time,
        ..sighted
    }
}

/// A load or an LR.
pub(crate) fn load(
    hart: &mut TimedHart,
    common: &mut Common,
    round: u32,
    registers: &Registers,
    operation: &Operation,
) -> Result<Advance, OutOfMemory>
    requires { hart.old.state.stop ≡ None }
{
    let pc = hart.state.pc;
    let doubleword = common.memory.doubleword(operation.address);
    let look = look(hart, common, registers, operation, doubleword);
    let answer = if look.seen == doubleword {
        common
            .memory
            .serve(&mut hart.state, hart.timing.number, round)?
    } else {
        let laid = Store {
            address: operation.address,
            width: operation.width,
            value: look.seen >> shift_of(operation.address),
        };
        common
            .memory
            .serve_on(&mut hart.state, hart.timing.number, round, laid)?
    };
    let Stepped::Done(Some(access)) = answer else {
        return ended(hart, common, round);
    };
    hart.timing
        .views
        .load(registers, operation, look.time, look.latest)?;
    count(hart, common);
    common.note_step(scripted(hart, round, read_by(&access), false))?;
    note(hart, common, look, pc, access)?;
    Ok(Advance::Operated)
}

/// Notes what a load did. Where it reads old, it leaves no reservation.
fn note(
    hart: &TimedHart,
    common: &mut Common,
    look: Sighted,
    pc: u64,
    access: Access,
) -> Result<(), OutOfMemory> {
    let number = hart.timing.number;
    if let Some(back) = look.back {
        common.memory.lose_reservation(number);
        common.note_departure(Departure {
            hart: number,
            step: access.place(),
            way: Way::Old(back),
        })?;
    }
    let event = common.note_event();
    let _number = common.note_deed(Deed {
        hart: number,
        pc,
        access,
        earliest: look.time,
        at: look.at,
        behind: 0,
        event,
    })?;
    Ok(())
}

/// The number that an access read.
pub(crate) fn read_by(access: &Access) -> Option<u64> {
    match *access {
        Access::Load { read, .. }
        | Access::LoadReserved { read, .. }
        | Access::Atomic { read, .. } => Some(read),
        Access::Store { .. } | Access::StoreConditional { .. } | Access::Fence { .. } => None,
    }
}
