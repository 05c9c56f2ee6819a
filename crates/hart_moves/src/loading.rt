//! An operation that gets a number from memory, at a time.
ghost use Rattle.std.specs.Prelude.{◌≡◌, ◌+◌, ◌≤◌, ℕ, length, option_map, IfSome, Option};
ghost use Rattle.pages.specs.Memory.{width_bytes};
ghost use Rattle.rv64_decode.specs.Atomics.{atomic_of};
ghost use Rattle.hart_step.specs.Numbers.{plus};
ghost use Rattle.hart_step.specs.Step.{extended_to};
ghost use Rattle.run_bounds.specs.Operations.{access_of};
ghost use Rattle.all_endings.specs.HartRuns.{Gets};
ghost use Rattle.all_endings.specs.RunStates.{Move, RunState as AbstractState};
ghost use Rattle.hart_states.specs.Opening.{opening_of};
ghost use Rattle.hart_states.specs.Readings.{IsSpan};
ghost use Rattle.hart_states.specs.States.{listed, state_of};
ghost use Rattle.hart_moves.specs.Choosing.{IsChoiceOf, IsComing, IsFound, IsGot, LoadsSo, exchanged, put_back};

use crate::coming::Coming;
use hart_states::{Choice, ListedStore, OpeningMemory, RunState, read_at};
use hart_step::{amo_value, sign_extended};
use pages::Width;
use run_bounds::{Operation, TouchedByte};
use rv64_decode::{Atomic, Instr};

/// What a load gets at a time.
#[derive(Clone, Copy)]
pub(crate) struct Got {
    /// The number, where it is known.
    pub number: Option<u64>,
    /// Of each of its bytes, the place behind the store that it is from.
    pub sources: [usize; 8],
}

/// What a load gets at a time: nothing that is known where it is later.
fn got_at(
    list: &[ListedStore],
    memory: &OpeningMemory<'_>,
    known: &[TouchedByte; 8],
    address: u64,
    width: Width,
    time: usize,
) -> Option<Got>
    requires within { address + width_bytes width ≤ length memory.now.pages.now.memory.bytes }
    ensures { (a : AbstractState) (v : Move) (o : Option ℕ) →
        IsSpan a known.now address (width_bytes width) → v.time ≡ time →
        Gets (listed list.now) (opening_of memory.now) a v address width o →
        IsGot v address (width_bytes width) o result }
{
    if time > list.len() {
        return Some(Got {
            number: None,
            sources: [0; 8],
        });
    }
    match read_at(list, memory, known, address, width, time) {
        Some(reading) => {
            let sources = reading.sources;
            Some(Got {
                number: Some(reading.number),
                sources,
            })
        }
        None => None,
    }
}

/// The register that a number that is read gives.
fn extended(operation: &Operation, number: Option<u64>) -> Option<u64>
    ensures { result ≡ option_map (extended_to operation.now.signed operation.now.width) number }
{
    match number {
        Some(number) if operation.signed => Some(sign_extended(operation.width, number)),
        Some(number) => Some(number),
        None => None,
    }
}

/// What an AMO puts in place of a number that it read.
fn put_back(i: &Instr, old: u64, operand: u64) -> Option<u64>
    ensures { result ≡ put_back (atomic_of i.now) old operand }
{
    match i.atomic() {
        Some(
            Atomic::Operation {
                operation,
                width,
                ..
            },
        ) => Some(amo_value(operation, width, old, operand)),
        _ => None,
    }
}

/// The same, where the number and the data register may be unknown.
fn exchanged(i: &Instr, old: Option<u64>, operand: Option<u64>) -> Option<u64>
    ensures { result ≡ exchanged i.now old operand }
{
    match (old, operand) {
        (Some(old), Some(operand)) => put_back(i, old, operand),
        _ => None,
    }
}

/// A load, an LR or an AMO that gets this.
fn load_of(state: &RunState, coming: &Coming, got: &Got, time: usize) -> Choice
    ensures { result ≡ record {
      instruction = coming.now.instruction;
      access = access_of coming.now.operation;
      time = time;
      result = option_map (extended_to coming.now.operation.signed coming.now.operation.width)
          got.now.number;
      written = exchanged coming.now.instruction got.now.number coming.now.operand;
      sources = got.now.sources;
      next = plus state.now.pc 4;
    } }
{
    let sources = got.sources;
    Choice {
        instruction: coming.instruction,
        access: coming.operation.access(),
        time,
        result: extended(&coming.operation, got.number),
        written: exchanged(&coming.instruction, got.number, coming.operand),
        sources,
        next: state.pc.wrapping_add(4),
    }
}

/// A load, an LR or an AMO at a time, by the rules 2, 3 and 12.
pub(crate) fn load_at(
    list: &[ListedStore],
    memory: &OpeningMemory<'_>,
    state: &RunState,
    coming: &Coming,
    time: usize,
) -> Option<Choice>
    requires coming { IsComing (state_of state.now) coming.now }
    requires within { coming.now.operation.address + width_bytes coming.now.operation.width ≤
        length memory.now.pages.now.memory.bytes }
    ensures found { (v : Move) → v.instruction ≡ coming.now.instruction → v.time ≡ time →
        LoadsSo (listed list.now) (opening_of memory.now) (state_of state.now)
        coming.now.operation v →
        IsFound (listed list.now) (state_of state.now) result v }
    ensures is { IfSome result (λ d. IsChoiceOf (state_of state.now) coming.now d) }
{
    let (address, width) = (coming.operation.address, coming.operation.width);
    match got_at(list, memory, &coming.known, address, width, time) {
        Some(got) => Some(load_of(state, coming, &got, time)),
        None => None,
    }
}
