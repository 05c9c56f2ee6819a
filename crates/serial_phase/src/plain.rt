ghost use Rattle.std.specs.Prelude.{◌≡◌, Some};
ghost use Rattle.hart_step.specs.DecodedCode.{decoded};
ghost use Rattle.hart_step.specs.Room.{HasSpares};
ghost use Rattle.hart_step.specs.Step.{stepped};
ghost use Rattle.round_schedule.specs.declared.access.Stepped.TheVariants.{Done};
ghost use Rattle.round_schedule.specs.ReservingTurn.{updated, updated_by};
ghost use Rattle.serial_phase.specs.Plain.{IsPlain, IsPlainAnswer};
ghost use Rattle.serial_phase.specs.Words.{Leaves, answered_reservations};

use crate::shared::SharedState;
use hart_step::{Hart, step_decoded};
use round_schedule::{Access, Reservations, Stepped};
use rv64_decode::Instr;

/// Does an instruction that has no effect of its own in the serial phase, on memory itself. Its
/// store breaks the reservations of other harts at once.
pub(crate) fn plain(h: &mut Hart, state: &mut SharedState, hart: u32, i: Instr) -> Stepped
    requires known { decoded state.old.pages.memory h.old.pc ≡ Some i }
    requires room { HasSpares 1 state.old.pages }
    ensures answer { result ≡ (stepped h.old state.old.pages.memory).answer }
    ensures leaves { Leaves hart (stepped h.old state.old.pages.memory) h.new state.old state.new }
{
    // A store that has no fault lies in one of these pages.
    let _pages = state.pages.count();
    let answer = step_decoded(h, &mut state.pages, i).unwrap();
    note_answer(answer, &mut state.reservations, hart);
    answer
}

/// Breaks the reservations that a plain instruction breaks.
fn note_answer(answer: Stepped, reservations: &mut Reservations, hart: u32)
    requires { IsPlainAnswer answer }
    ensures { reservations.new ≡ answered_reservations hart answer reservations.old }
{
    match answer {
        Stepped::Done(seen) => note_seen(seen, reservations, hart),
        Stepped::Waits => {}
        Stepped::Stopped(_) => {}
    }
}

/// Breaks the reservations of other harts that the access of a plain instruction breaks, where it made one.
#[inline(always)]
pub(crate) fn note_seen(seen: Option<Access>, reservations: &mut Reservations, hart: u32)
    requires { IsPlainAnswer (Done seen) }
    ensures { reservations.new ≡ updated_by hart seen reservations.old }
{
    match seen {
        Some(access) => note(access, reservations, hart),
        None => {}
    }
}

/// Breaks the reservations of other harts that an access of a plain instruction breaks.
fn note(access: Access, reservations: &mut Reservations, hart: u32)
    requires { IsPlain access }
    ensures { reservations.new ≡ updated hart 0 access reservations.old }
{
    match access {
        Access::Store { width, address, .. } => reservations.break_by(hart, address, width),
        Access::Load { .. } => {}
        Access::Fence { .. } => {}
        Access::LoadReserved { .. } => unreachable!(),
        Access::StoreConditional { .. } => unreachable!(),
        Access::Atomic { .. } => unreachable!(),
    }
}
