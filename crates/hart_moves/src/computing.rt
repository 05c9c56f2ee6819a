//! An instruction that computes, jumps or branches, and a fence.
ghost use Rattle.std.specs.Prelude.{◌≡◌, ◌<◌, ◌&&◌, length, ℕ, List, Option, if◌then◌else◌, replicate, IfOk, IfSome, None, Some};
ghost use Rattle.hart_step.specs.Buffered.{seen_through};
ghost use Rattle.hart_step.specs.DecodedCode.{decoded};
ghost use Rattle.hart_step.specs.Effect.{action};
ghost use Rattle.hart_step.specs.Step.{performed, put_to, went_on};
ghost use Rattle.execution.specs.Executions.{no_access};
ghost use Rattle.hart_step.specs.Registers.{reg};
ghost use Rattle.all_endings.specs.Locality.{filled};
ghost use Rattle.all_endings.specs.RunStates.{Move, answers_to};
ghost use Rattle.all_endings.specs.StoreLists.{Stored};
ghost use Rattle.rv64_decode.specs.declared.instruction.Instr.TheVariants.{Fence};
ghost use Rattle.round_schedule.specs.declared.access.Access.TheVariants.{Fence as FenceOf};
ghost use Rattle.hart_moves.specs.Stops.{IsLeftBy};
ghost use Rattle.hart_moves.specs.Choosing.{ComputesSo, IsFound, OrdersSo, knows};
ghost use Rattle.hart_states.specs.States.{state_of};

use hart_states::{Choice, RunState, answered, filled, known};
use hart_step::{Buffered, Hart, step_decoded};
use memory_order::{Registers, used_registers};
use pages::{OutOfMemory, Pages};
use round_schedule::{Access, Stepped};
use rv64_decode::{FenceMode, FenceSet, Instr};
use std::alloc::Global;

/// The access of what makes none: a fence that orders nothing.
pub(crate) fn idle() -> Access
    ensures { result ≡ no_access }
{
    let none = FenceSet {
        reads: false,
        writes: false,
    };
    Access::Fence {
        before: none,
        after: none,
        mode: FenceMode::Normal,
        place: 0,
    }
}

/// A fence.
pub(crate) fn fence(
    state: &RunState,
    i: &Instr,
    before: FenceSet,
    after: FenceSet,
    mode: FenceMode,
) -> Choice
    ensures found { (m : List Stored) (v : Move) → v.instruction ≡ i.now →
        i.now ≡ Fence before after mode → OrdersSo before after mode (state_of state.now) v →
        IsFound m (state_of state.now) (Some result) v }
    ensures fits { result.access ≡ FenceOf before after mode 0 }
{
    Choice {
        instruction: *i,
        access: Access::Fence {
            before,
            after,
            mode,
            place: 0,
        },
        time: 0,
        result: None,
        written: None,
        sources: [0; 8],
        next: state.pc.wrapping_add(4),
    }
}

/// Whether all source registers are known.
pub(crate) fn knows(registers: &[Option<u64>; 32], used: &Registers) -> bool
    ensures { result ≡ knows used.now registers.now }
{
    known(registers, used.address).is_some()
        && known(registers, used.value).is_some()
        && known(registers, used.first).is_some()
        && known(registers, used.second).is_some()
}

/// The hart of a state, with 0 for each unknown register.
pub fn hart_of(state: &RunState) -> Hart
    ensures registers { result.x ≡ filled state.now.registers }
    ensures pc { result.pc ≡ state.now.pc }
    ensures runs { result.stop ≡ None }
{
    let x = filled(&state.registers);
    Hart {
        x,
        pc: state.pc,
        stop: None,
        done: 0,
    }
}

/// Does a hart's next instruction, over memory as it is seen through a buffer.
pub(crate) fn step_through(
    h: &mut Hart,
    bus: &mut Buffered<'_>,
    i: Instr,
) -> Result<Stepped, OutOfMemory>
    requires known { decoded (seen_through bus.old) h.old.pc ≡ Some i }
    ensures { IfOk result (λ answer. IsLeftBy
        (performed (action i h.old.x h.old.pc) h.old (seen_through bus.old)) answer h.new) }
{
    let answer = step_decoded(h, bus, i)?;
    Ok(answer)
}

/// A hart behind its next instruction, where it goes on without an access.
fn computed(
    alloc: Global,
    pages: &Pages,
    begun: Hart,
    i: Instr,
) -> Result<Option<Hart>, OutOfMemory>
    requires known { decoded pages.now.memory begun.pc ≡ Some i }
    ensures { IfOk result (λ left. (register number pc : ℕ) →
        performed (action i begun.x begun.pc) begun pages.now.memory ≡
        put_to begun register number pc →
        left ≡ Some (went_on begun register number pc)) }
{
    let mut hart = begun;
    let mut bus = Buffered::new(alloc, pages);
    let answer = step_through(&mut hart, &mut bus, i)?;
    drop(bus);
    match answer {
        Stepped::Done(_) => Ok(Some(hart)),
        _ => Ok(None),
    }
}

/// There are 32 registers.
fn has_each(x: &[u64; 32])
    ensures { length x.now ≡ 32 }
{}

/// The register that an instruction writes is a register.
fn answers_fit(i: &Instr)
    ensures { answers_to i.now < 32 }
{
    let _register = answered(i).index();
}

/// An instruction that computes, jumps or branches.
pub(crate) fn compute(
    alloc: Global,
    pages: &Pages,
    state: &RunState,
    i: &Instr,
) -> Result<Option<Choice>, OutOfMemory>
    requires known { decoded pages.now.memory state.now.pc ≡ Some i.now }
    ensures found { IfOk result (λ o. (m : List Stored) (v : Move) → v.instruction ≡ i.now →
        ComputesSo (state_of state.now) v → IsFound m (state_of state.now) o v) }
    ensures fits { IfOk result (λ o. IfSome o (λ c. c.access ≡ no_access)) }
{
    let begun = hart_of(state);
    let used = used_registers(i);
    let is_known = knows(&state.registers, &used);
    has_each(&begun.x);
    answers_fit(i);
    match computed(alloc, pages, begun, *i)? {
        Some(hart) => Ok(Some(put_of(i, &hart, is_known))),
        None => Ok(None),
    }
}

/// What a hart has put into a register, where it is known.
fn put_of(i: &Instr, hart: &Hart, is_known: bool) -> Choice
    ensures { result ≡ record {
      instruction = i.now;
      access = no_access;
      time = 0;
      result = (if is_known then Some (reg hart.now.x (answers_to i.now)) else None);
      written = None;
      sources = replicate 8 0;
      next = hart.now.pc;
    } }
{
    let number = hart.reg(answered(i));
    Choice {
        instruction: *i,
        access: idle(),
        time: 0,
        result: if is_known { Some(number) } else { None },
        written: None,
        sources: [0; 8],
        next: hart.pc,
    }
}
