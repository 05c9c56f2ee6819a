//! The state behind a move.
ghost use Rattle.std.specs.Prelude.{◌≡◌, ◌+◌, ◌++◌, ◌≤◌, ◌^◌, ◌%◌, ◌||◌, option_map, if◌then◌else◌, IfOk};
ghost use Rattle.round_schedule.specs.Accesses.{address_of, bytes_of, is_lr, loads, stores};
ghost use Rattle.round_schedule.specs.Held.{held_after_own};
ghost use Rattle.all_endings.specs.RunStates.{behind, puts_out};
ghost use Rattle.hart_states.specs.Choices.{move_of};
ghost use Rattle.hart_states.specs.Following.{Follows, place_done};
ghost use Rattle.hart_states.specs.States.{listed, state_of};

use crate::choice::Choice;
use crate::listed_store::ListedStore;
use crate::registers::{answered, known, with_result};
use crate::run_state::{RunState, has_all};
use crate::touching::bytes_left;
use hart_step::Span;
use memory_order::used_registers;
use pages::OutOfMemory;
use round_schedule::Access;
use run_bounds::{carried_after, kinds_after, operand_bound};
use rv64_decode::{Instr, Reg};

/// A state behind a move.
#[derive(Drop)]
pub struct Successor {
    /// The state.
    pub state: RunState,
    /// The time of the move, where it stores: a place of the list, or later.
    pub done: Option<usize>,
}

/// The time behind a move.
#[tactic(auto, using(std::proofs::lemmas::Grind::common_steps))]
fn time_behind(list: &[ListedStore], choice: &Choice) -> usize
    ensures { result ≡ behind (listed list.now) (move_of choice.now) }
{
    let later = list.len() + 1;
    if choice.access.stores() && choice.time < later {
        choice.time + 1
    } else {
        choice.time.min(later)
    }
}

/// What an access leaves of the hart's reservation.
fn held_left(access: &Access, held: Option<Span>) -> Option<Span>
    ensures { result ≡ held_after_own access.now held }
{
    match *access {
        Access::LoadReserved { width, address, .. } => Some(Span { address, width }),
        Access::StoreConditional { .. } => None,
        _ => held,
    }
}

fn is_load_reserved(access: &Access) -> bool
    ensures { result ≡ is_lr access.now }
{
    matches!(*access, Access::LoadReserved { .. })
}

/// What was put out, once an instruction is done.
fn output_left(state: &RunState, i: &Instr) -> Result<Vec<Option<u8>>, OutOfMemory>
    ensures { IfOk result (λ left. left.items ≡
        state.now.output.items ++ puts_out state.now.registers i.now) }
{
    let mut output = Vec::from_slice(*state.output.allocator(), &state.output)?;
    if let Instr::Ecall = *i {
        if let Some(1) = known(&state.registers, Reg::new(17)) {
            output.push(low_byte(known(&state.registers, Reg::new(10))))?;
        }
    }
    Ok(output)
}

fn low_byte(number: Option<u64>) -> Option<u8>
    ensures { result ≡ option_map (λ n. n % 2 ^ 8) number }
{
    match number {
        Some(number) => Some((number % 256) as u8),
        None => None,
    }
}

/// Whether an access is one of a memory operation.
fn operates(access: &Access) -> bool
    ensures { result ≡ (loads access.now || stores access.now) }
{
    access.loads() || access.stores()
}

/// Rule 8: the time behind the last LR.
fn reserved_left(choice: &Choice, behind: usize, reserved: usize) -> usize
    ensures { result ≡ (if is_lr choice.now.access then behind else reserved) }
{
    if is_load_reserved(&choice.access) {
        behind
    } else {
        reserved
    }
}

/// The places behind the stores that the last LR read.
fn sources_left(choice: &Choice, sources: [usize; 8]) -> [usize; 8]
    ensures { result ≡ (if is_lr choice.now.access then choice.now.sources else sources) }
{
    if is_load_reserved(&choice.access) {
        choice.sources
    } else {
        sources
    }
}

fn place_done(choice: &Choice) -> Option<usize>
    ensures { result ≡ place_done (move_of choice.now) }
{
    if choice.access.stores() {
        Some(choice.time)
    } else {
        None
    }
}

/// The state behind a move.
///
/// # Errors
///
/// `OutOfMemory` alone.
pub fn follow(
    list: &[ListedStore],
    hart: u8,
    state: &RunState,
    choice: &Choice,
) -> Result<Successor, OutOfMemory>
    requires fits { address_of choice.now.access + bytes_of choice.now.access ≤ 2 ^ 64 }
    ensures { IfOk result (λ s.
        Follows hart (listed list.now) (state_of state.now) (move_of choice.now) s) }
{
    let used = used_registers(&choice.instruction);
    let behind = time_behind(list, choice);
    let needs = operand_bound(&state.carried, &used);
    let carried = carried_after(&state.carried, &used, &choice.access, behind);
    has_all(&carried.registers);
    let left = RunState {
        pc: choice.next,
        registers: with_result(
            state.registers,
            answered(&choice.instruction),
            choice.result,
        ),
        kinds: kinds_after(
            &state.kinds,
            &choice.access,
            operates(&choice.access),
            behind,
        ),
        carried,
        bytes: bytes_left(&state.bytes, choice, behind, needs)?,
        held: held_left(&choice.access, state.held),
        reserved: reserved_left(choice, behind, state.reserved),
        sources: sources_left(choice, state.sources),
        output: output_left(state, &choice.instruction)?,
    };
    Ok(Successor {
        state: left,
        done: place_done(choice),
    })
}
