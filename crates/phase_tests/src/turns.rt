//! A serial turn in which an SC stops its hart, through the public calls of the crate `serial_phase`: nothing that a program shows tells
//! then whether the hart keeps its reservation.

ghost use Rattle.std.specs.Prelude.{◌≡◌, ◌*◌, ◌+◌, ◌≤◌, ◌<◌, IfOk, length};
ghost use Rattle.serial_phase.specs.Phase.{budget_from, budget_of};

use crate::code::code_of;
use hart_step::{Hart, Stop};
use pages::{OutOfMemory, Width};
use round_schedule::{MOST_HARTS, Reservations};
use serial_phase::{Console, SerialLog, SerialRound, SharedState, serial};
use std::alloc::Global;
use std::test::Fail;

/// SC.D x7,x6,(x5).
const CONDITIONAL: u32 = 0x1862_B3AF;

/// One page with the SC as its code, and no reservation of one hart.
fn begin(alloc: Global) -> Result<SharedState, OutOfMemory>
    ensures size { IfOk result (λ s. length s.reservations ≡ 1) }
{
    let (pages, code) = code_of(alloc, &[CONDITIONAL])?;
    Ok(SharedState {
        pages,
        code,
        reservations: Reservations::new(1),
        console: Console::new(alloc, Vec::new(alloc)),
        log: SerialLog::new(alloc),
    })
}

/// A hart before its first instruction, with an address in x5.
fn hart(address: u64) -> Hart {
    let mut x = [0; 32];
    x[5] = address;
    Hart {
        x,
        pc: 0,
        done: 0,
        stop: None,
    }
}

/// How many instructions harts `first`, `first` + 1, .., `left` of them, may do.
fn room_from(waiting: u64, budget: u32, first: u32, left: u32) -> u32
    requires within { first + left ≤ 64 }
    requires budget { budget ≤ 1000 }
    ensures room { result ≡ budget_from waiting budget first left }
    ensures small { result ≤ 1000 * left }
{
    if left == 0 {
        return 0;
    }
    own_room(waiting, budget, first) + room_from(waiting, budget, first + 1, left - 1)
}

/// How many instructions one hart may do.
fn own_room(waiting: u64, budget: u32, hart: u32) -> u32
    requires { hart < MOST_HARTS }
    ensures room { result ≡ budget_of waiting hart budget }
    ensures small { result ≤ budget }
{
    if (waiting >> hart) % 2 == 1 {
        budget
    } else {
        0
    }
}

/// Makes room for the turns of the waiting harts in round 7, and does them.
fn turns(
    alloc: Global,
    shared: &mut SharedState,
    harts: &mut [Hart],
    waiting: u64,
    budget: u32,
) -> Result<(), OutOfMemory>
    requires harts { length harts.old ≡ length shared.old.reservations }
    requires few { length harts.old ≤ MOST_HARTS }
    requires budget { budget ≤ 1000 }
    ensures size { length shared.new.reservations ≡ length shared.old.reservations }
{
    let room = room_from(waiting, budget, 0, harts.len() as u32);
    shared.log.clear();
    shared.log.reserve(room as usize)?;
    shared.console.reserve(room as usize)?;
    shared.pages.prepare(alloc, &[], room)?;
    let phase = SerialRound {
        round: 7,
        waiting,
        budget,
    };
    serial(shared, harts, phase);
    Ok(())
}

/// The stop of a hart with a reservation at 0x100 that does the SC at an address, and whether it keeps the reservation.
fn after_sc(
    alloc: Global,
    shared: &mut SharedState,
    address: u64,
) -> Result<(Option<Stop>, bool), OutOfMemory>
    requires size { length shared.old.reservations ≡ 1 }
{
    shared.reservations.set(0, 0x100, Width::W8);
    let mut harts = [hart(address)];
    turns(alloc, shared, &mut harts, 1, 1)?;
    Ok((harts[0].stop, shared.reservations.take(0, 0x100, Width::W8)))
}

/// The same in a memory of its own.
fn left_by_sc(alloc: Global, address: u64) -> Result<(Option<Stop>, bool), OutOfMemory> {
    let mut shared = begin(alloc)?;
    after_sc(alloc, &mut shared, address)
}

#[test]
fn an_sc_that_stops_keeps_the_reservation(rt: HostRuntime) -> Result<(), Fail> {
    // one to the code, and one that is misaligned
    for (address, code) in [(0x000, 9), (0x104, 7)] {
        let left = left_by_sc(rt.alloc(), address)?;
        assert_eq!(rt; left, (Some(Stop { code, value: 0 }), true), "{address}");
    }
    Ok(())
}
