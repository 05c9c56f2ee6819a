//! A plain store to own bytes: where it stands among the stores of the list, nobody asks.
ghost use Rattle.std.specs.Prelude.{◌≡◌, ◌+◌, ◌≤◌, ◌<◌, ◌^◌, ℕ, if◌then◌else◌, option_map, IfOk, OnOk};
ghost use Rattle.pages.specs.Memory.{byte_of, in_range, width_bytes};
ghost use Rattle.hart_step.specs.Step.{cut};
ghost use Rattle.run_bounds.specs.declared.operation.Kind.TheVariants.{Store as StoreKind};
ghost use Rattle.run_bounds.specs.Touched.{known_at};
ghost use Rattle.all_endings.specs.HartRuns.{Stands};
ghost use Rattle.all_endings.specs.RunStates.{Move};
ghost use Rattle.hart_moves.specs.Choosing.{IsComing};
ghost use Rattle.hart_states.specs.States.{listed, state_of};
ghost use Rattle.own_moves.specs.Private.{FollowsPrivately, KeepsSo, kept_byte};

use crate::timing::earliest;
use hart_moves::{Coming, are_registers};
use hart_states::{ListedStore, RunState, Successor, is_sized};
use hart_step::cut_to;
use memory_order::used_registers;
use pages::{OutOfMemory, Width};
use round_schedule::Access;
use run_bounds::{
    OwnByte, TouchedByte, byte_known, carried_after, kinds_after, operand_bound, set_byte,
};

/// The byte at a place of a number that is stored.
fn byte_stored(number: Option<u64>, width: Width, place: u64) -> Option<u8>
    ensures { result ≡ option_map (λ n. byte_of n place) (option_map (cut width) number) }
{
    match number {
        Some(number) => {
            let stored = Access::Store {
                width,
                place: 0,
                address: 0,
                written: cut_to(width, number),
            };
            Some(stored.byte_written(place))
        }
        None => None,
    }
}

/// What is kept of the byte at a place of a store.
fn byte_kept(
    known: &TouchedByte,
    coming: &Coming,
    place: u64,
    time: usize,
    needs: usize,
) -> TouchedByte
    requires fits { coming.now.operation.address + place < 2 ^ 64 }
    ensures { result ≡ kept_byte coming.now.operation.address
        (option_map (cut coming.now.operation.width) coming.now.operand) time needs
        (coming.now.operation.address + place) known.now }
{
    TouchedByte {
        address: coming.operation.address + place,
        touched: known.touched.max(time),
        seen: known.seen,
        own: Some(OwnByte {
            place: 0,
            byte: byte_stored(coming.operand, coming.operation.width, place),
            atomic: false,
            needs,
        }),
    }
}

/// Keeps of each byte of a store what it leaves there.
fn keep_bytes(
    bytes: &mut Vec<TouchedByte>,
    coming: &Coming,
    time: usize,
    needs: usize,
) -> Result<(), OutOfMemory>
    requires fits { coming.now.operation.address + width_bytes coming.now.operation.width ≤ 2 ^ 64 }
    ensures { OnOk result ((x : ℕ) → known_at bytes.new.items x ≡
        (if in_range coming.now.operation.address (width_bytes coming.now.operation.width) x
        then kept_byte coming.now.operation.address
        (option_map (cut coming.now.operation.width) coming.now.operand) time needs x
        (known_at bytes.old.items x)
        else known_at bytes.old.items x)) }
{
    let first = coming.operation.address;
    for place in 0..coming.operation.width.bytes() {
        let known = byte_known(bytes, first + place);
        set_byte(bytes, byte_kept(&known, coming, place, time, needs))?;
    }
    Ok(())
}

/// The state behind a plain store to own bytes, at its least time.
///
/// # Errors
///
/// `OutOfMemory` alone.
pub(crate) fn keep(
    list: &[ListedStore],
    hart: u8,
    state: &RunState,
    coming: &Coming,
) -> Result<Successor, OutOfMemory>
    requires coming { IsComing (state_of state.now) coming.now }
    requires kind { coming.now.operation.kind ≡ StoreKind }
    requires fits { coming.now.operation.address + width_bytes coming.now.operation.width ≤ 2 ^ 64 }
    ensures { IfOk result (λ s. (v : Move) → v.instruction ≡ coming.now.instruction →
        KeepsSo (state_of state.now) coming.now.operation v → Stands (state_of state.now) v →
        FollowsPrivately hart (listed list.now) (state_of state.now) v s) }
{
    let _hart = hart;
    let access = coming.operation.access();
    let time = earliest(state, coming, &access, list.len() + 1);
    let needs = operand_bound(&state.carried, &coming.used);
    let mut bytes = Vec::from_slice(*state.bytes.allocator(), &state.bytes)?;
    keep_bytes(&mut bytes, coming, time, needs)?;
    is_sized(state);
    are_registers(&used_registers(&coming.instruction));
    let left = RunState {
        pc: state.pc.wrapping_add(4),
        registers: state.registers,
        kinds: kinds_after(&state.kinds, &access, true, time),
        carried: carried_after(&state.carried, &coming.used, &access, time),
        bytes,
        held: state.held,
        reserved: state.reserved,
        sources: state.sources,
        output: Vec::from_slice(*state.output.allocator(), &state.output)?,
    };
    Ok(Successor {
        state: left,
        done: None,
    })
}
