//! The state of a hart's run against a list of stores.
ghost use Rattle.all_endings.specs.Earlier.{IsSized};
ghost use Rattle.all_endings.specs.Lowering.{IsLower};
ghost use Rattle.all_endings.specs.RunStates.{run_start};
ghost use Rattle.hart_states.specs.States.{state_of};
ghost use Rattle.std.specs.Prelude.{◌≡◌, length};

use crate::registers::all_known;
use hart_step::{Hart, Span};
use run_bounds::{CarriedTimes, KindTimes, NO_KINDS, NONE_CARRIED, TouchedByte};
use std::alloc::Global;

/// What a hart's run keeps. What is read behind the end of the list is unknown.
#[derive(Drop)]
pub struct RunState {
    /// The address of the next instruction.
    pub pc: u64,
    /// The registers, as far as they are known. What stands at the place of x0 is not looked at.
    pub registers: [Option<u64>; 32],
    /// Rules 4 to 7.
    pub kinds: KindTimes,
    /// Rules 9, 10, 11 and 13.
    pub carried: CarriedTimes,
    /// Rules 1, 2, 3 and 12, of the bytes that the hart has touched.
    pub bytes: Vec<TouchedByte>,
    /// The reservation that the hart's own LRs and SCs left it.
    pub held: Option<Span>,
    /// Rule 8: the time behind the LR.
    pub reserved: usize,
    /// Atomicity: of each byte of the reservation, the place behind the store that the LR read.
    pub sources: [usize; 8],
    /// What it has put out.
    pub output: Vec<Option<u8>>,
}

/// A state has a bound for each register.
pub fn is_sized(state: &RunState)
    ensures { IsSized (state_of state.now) }
{
    has_all(&state.carried.registers);
}

/// There is a bound for each register.
pub(crate) fn has_all(registers: &[usize; 32])
    ensures { length registers.now ≡ 32 }
{}

/// Where a hart's runs begin.
pub fn start(alloc: Global, hart: &Hart) -> RunState
    ensures { IsLower (state_of result) (run_start hart.now) }
{
    RunState {
        pc: hart.pc,
        registers: all_known(&hart.x),
        kinds: NO_KINDS,
        carried: NONE_CARRIED,
        bytes: Vec::new(alloc),
        held: None,
        reserved: 0,
        sources: [0; 8],
        output: Vec::new(alloc),
    }
}
