//! The instructions that have an effect of their own in the serial phase, a function for each kind.
ghost use Rattle.std.specs.Prelude.{◌≡◌, ◌<◌, ◌≤◌, ◌+◌, length, None};
ghost use Rattle.pages.specs.Memory.{store_fault};
ghost use Rattle.round_schedule.specs.declared.access.Stepped.TheVariants.{Stopped};
ghost use Rattle.hart_step.specs.Room.{HasSpares};
ghost use Rattle.hart_step.specs.SerialStep.{called, succeeded};
ghost use Rattle.hart_step.specs.Step.{stopped_with};
ghost use Rattle.serial_phase.specs.Atomics.{atomic_step, conditional_at, exchanged_at, reserved_at};
ghost use Rattle.serial_phase.specs.Roomed.{HasRoom};
ghost use Rattle.serial_phase.specs.Words.{Leaves, Stores};

use crate::console::Console;
use crate::shared::SharedState;
use crate::target::{Target, target_of, width_of};
use hart_step::{Hart, amo_value, cut_to, sign_extended, stop_code};
use pages::Store;
use round_schedule::{Access, Stepped};
use rv64_decode::{AcquireRelease, Atomic, AtomicOperation, Reg};

/// Stops the hart for good, and changes nothing else.
pub(crate) fn stop(h: &mut Hart, code: u8, value: u64) -> Stepped
    ensures answer { result ≡ Stopped code }
    ensures hart { h.new ≡ stopped_with h.old code value }
{
    h.halt(code, value);
    Stepped::Stopped(code)
}

/// An instruction of the A extension, by its kind.
pub(crate) fn atomic(h: &mut Hart, state: &mut SharedState, hart: u32, word: Atomic) -> Stepped
    requires hart { hart < length state.old.reservations }
    requires room { HasSpares 1 state.old.pages }
    ensures answer { result ≡ (atomic_step word hart h.old state.old).answer }
    ensures leaves { Leaves hart (atomic_step word hart h.old state.old) h.new state.old state.new }
{
    match word {
        Atomic::LoadReserved {
            rd,
            rs1,
            width,
            ordering,
        } => {
            let target = target_of(h, rd, rs1, width, ordering);
            reserve(h, state, hart, target)
        }
        Atomic::StoreConditional {
            rd,
            rs1,
            rs2,
            width,
            ordering,
        } => {
            let target = target_of(h, rd, rs1, width, ordering);
            let value = h.reg(rs2);
            conditional(h, state, hart, target, value)
        }
        Atomic::Operation {
            operation,
            rd,
            rs1,
            rs2,
            width,
            ordering,
        } => {
            let target = target_of(h, rd, rs1, width, ordering);
            let operand = h.reg(rs2);
            exchange(h, state, hart, target, operation, operand)
        }
    }
}

/// An LR (manual, section 8.2).
fn reserve(h: &mut Hart, state: &mut SharedState, hart: u32, target: Target) -> Stepped
    requires { hart < length state.old.reservations }
    ensures answer { result ≡ (reserved_at target h.old state.old).answer }
    ensures leaves { Leaves hart (reserved_at target h.old state.old) h.new state.old state.new }
{
    let width = width_of(target.width);
    let read = match state.pages.read(target.address, width) {
        Ok(read) => read,
        Err(fault) => return stop(h, stop_code(fault), 0),
    };
    state.reservations.set(hart, target.address, width);
    let place = h.done;
    h.go_on(target.rd, sign_extended(width, read));
    Stepped::Done(Some(Access::LoadReserved {
        width,
        ordering: target.ordering,
        place,
        address: target.address,
        read,
    }))
}

/// An SC (manual, section 8.2): its fault comes before its reservation is looked at.
fn conditional(
    h: &mut Hart,
    state: &mut SharedState,
    hart: u32,
    target: Target,
    value: u64,
) -> Stepped
    requires hart { hart < length state.old.reservations }
    requires room { HasSpares 1 state.old.pages }
    ensures answer { result ≡ (conditional_at target value hart h.old state.old).answer }
    ensures leaves { Leaves hart (conditional_at target value hart h.old state.old)
        h.new state.old state.new }
{
    let store = Store {
        address: target.address,
        width: width_of(target.width),
        value,
    };
    if let Err(fault) = state.pages.check_store(store.address, store.width) {
        return stop(h, stop_code(fault), 0);
    }
    if state.reservations.take(hart, store.address, store.width) {
        return succeed(h, state, hart, target.rd, store, target.ordering);
    }
    let place = h.done;
    h.go_on(target.rd, 1);
    Stepped::Done(Some(Access::StoreConditional {
        width: store.width,
        ordering: target.ordering,
        place,
        address: store.address,
        written: None,
    }))
}

/// An SC that found its reservation, which it has dropped (manual, section 8.2).
fn succeed(
    h: &mut Hart,
    state: &mut SharedState,
    hart: u32,
    rd: Reg,
    store: Store,
    ordering: AcquireRelease,
) -> Stepped
    requires fault { store_fault state.old.pages.memory store.address store.width ≡ None }
    requires room { HasSpares 1 state.old.pages }
    ensures answer { result ≡
        (succeeded h.old rd store.address store.width store.value ordering).answer }
    ensures hart { h.new ≡
        (succeeded h.old rd store.address store.width store.value ordering).hart }
    ensures stores { Stores hart store state.old state.new }
{
    put(state, hart, store);
    let place = h.done;
    h.go_on(rd, 0);
    Stepped::Done(Some(Access::StoreConditional {
        width: store.width,
        ordering,
        place,
        address: store.address,
        written: Some(cut_to(store.width, store.value)),
    }))
}

/// An AMO (manual, section 8.4), tested as a store.
fn exchange(
    h: &mut Hart,
    state: &mut SharedState,
    hart: u32,
    target: Target,
    operation: AtomicOperation,
    operand: u64,
) -> Stepped
    requires { HasSpares 1 state.old.pages }
    ensures answer { result ≡ (exchanged_at target operation operand h.old state.old).answer }
    ensures leaves { Leaves hart (exchanged_at target operation operand h.old state.old)
        h.new state.old state.new }
{
    let width = width_of(target.width);
    if let Err(fault) = state.pages.check_store(target.address, width) {
        return stop(h, stop_code(fault), 0);
    }
    let old = state.pages.read(target.address, width).unwrap();
    let written = amo_value(operation, target.width, old, operand);
    let store = Store {
        address: target.address,
        width,
        value: written,
    };
    put(state, hart, store);
    let place = h.done;
    h.go_on(target.rd, sign_extended(width, old));
    Stepped::Done(Some(Access::Atomic {
        width,
        ordering: target.ordering,
        place,
        address: target.address,
        read: old,
        written,
    }))
}

/// Does a store of a hart, which has no fault, where room is left. It breaks the reservations of
/// other harts (manual, section 8.2).
fn put(state: &mut SharedState, hart: u32, store: Store)
    requires fault { store_fault state.old.pages.memory store.address store.width ≡ None }
    requires room { HasSpares 1 state.old.pages }
    ensures { Stores hart store state.old state.new }
{
    // A store that has no fault lies in one of these pages.
    let _pages = state.pages.count();
    state.pages.apply(store);
    state
        .reservations
        .break_by(hart, store.address, store.width);
}

/// A call of the environment: x17 is its number, x10 its argument and its answer.
pub(crate) fn call(h: &mut Hart, console: &mut Console, round: u32) -> Stepped
    requires { HasRoom 1 console.old }
    ensures answer { result ≡ (called round h.old console.old.console).answer }
    ensures hart { h.new ≡ (called round h.old console.old.console).hart }
    ensures console { console.new.console ≡ (called round h.old console.old.console).console }
    ensures room { console.old.room ≤ console.new.room + 1 }
    ensures output { length console.old.console.output ≤ length console.new.console.output }
{
    let argument = h.reg(Reg::new(10));
    let answer = match h.reg(Reg::new(17)) {
        0 => return stop(h, 1, argument),
        1 => console.put(argument),
        2 => console.get(),
        3 => u64::from(round),
        _ => u64::MAX,
    };
    h.go_on(Reg::new(10), answer);
    Stepped::Done(None)
}
