//! Places whose times are counted by the stores that stay in a list.
ghost use Rattle.std.specs.Prelude.{◌≡◌, ℕ, true, IfOk, OnOk};
ghost use Rattle.hart_states.specs.States.{listed, state_of};
ghost use Rattle.list_suffixes.specs.ApartRuns.{StandsForAlways};
ghost use Rattle.list_suffixes.specs.Staying.{place_before, spot_kept, state_kept};
ghost use Rattle.private_bytes.specs.Ahead.{IsAhead};
ghost use Rattle.run_places.specs.Spots.{is_among, spot_of};
ghost use Rattle.settled_walks.specs.Kept.{AreBytesKept, IsKeptIn, byte_kept, own_kept};

use crate::kept_times::{carried_kept, kept_before, kinds_kept, sources_kept, store_kept};
use hart_states::{ListedStore, RunState};
use late_spots::stays_at;
use pages::OutOfMemory;
use run_bounds::{OwnByte, TouchedByte, byte_known, set_byte};
use run_places::Place;
use std::alloc::Global;

/// The place with its times counted by the stores that stay. Bytes of which nothing is known any more are left out.
///
/// # Errors
///
/// `OutOfMemory` alone.
pub(crate) fn place_kept(
    alloc: Global,
    place: &Place,
    list: &[ListedStore],
    stays: &[bool],
) -> Result<Place, OutOfMemory>
    ensures { IfOk result (λ q. StandsForAlways (spot_of q)
        (spot_kept stays.now (listed list.now) (spot_of place.now))) }
{
    Ok(Place {
        state: state_kept(alloc, &place.state, list, stays)?,
        count: place.count,
        paid: paid_kept(alloc, &place.paid, stays)?,
        next: place.next,
        constant: place.constant,
    })
}

/// The state with its times counted so.
fn state_kept(
    alloc: Global,
    state: &RunState,
    list: &[ListedStore],
    stays: &[bool],
) -> Result<RunState, OutOfMemory>
    ensures { IfOk result (λ s. IsAhead (state_of s)
        (state_kept stays.now (listed list.now) (state_of state.now))) }
{
    Ok(RunState {
        pc: state.pc,
        registers: state.registers,
        kinds: kinds_kept(&state.kinds, stays),
        carried: carried_kept(&state.carried, stays),
        bytes: bytes_kept(alloc, &state.bytes, list, stays)?,
        held: state.held,
        reserved: kept_before(stays, state.reserved),
        sources: sources_kept(stays, list, state.held, &state.sources),
        output: Vec::from_slice(alloc, &state.output)?,
    })
}

/// What is kept of bytes.
fn bytes_kept(
    alloc: Global,
    bytes: &[TouchedByte],
    list: &[ListedStore],
    stays: &[bool],
) -> Result<Vec<TouchedByte>, OutOfMemory>
    ensures { IfOk result (λ v. AreBytesKept stays.now (listed list.now) bytes.now v.items) }
{
    let mut kept = Vec::new(alloc);
    for index in 0..bytes.len() {
        let byte = byte_known(bytes, bytes[index].address);
        add_known(&mut kept, byte_kept(&byte, list, stays))?;
    }
    Ok(kept)
}

/// Keeps a byte, if something is known of it.
fn add_known(kept: &mut Vec<TouchedByte>, byte: TouchedByte) -> Result<(), OutOfMemory>
    ensures { OnOk result (IsKeptIn byte kept.old.items kept.new.items) }
{
    if byte.touched == 0 && byte.seen == 0 && byte.own.is_none() {
        return Ok(());
    }
    set_byte(kept, byte)?;
    Ok(())
}

/// What is kept of one byte.
fn byte_kept(byte: &TouchedByte, list: &[ListedStore], stays: &[bool]) -> TouchedByte
    ensures { result ≡ byte_kept stays.now (listed list.now) byte.now }
{
    TouchedByte {
        address: byte.address,
        touched: kept_before(stays, byte.touched),
        seen: store_kept(stays, list, byte.address, byte.seen),
        own: match byte.own {
            Some(own) => Some(own_kept(&own, byte.address, list, stays)),
            None => None,
        },
    }
}

/// What is kept of the last own store to a byte.
fn own_kept(own: &OwnByte, address: u64, list: &[ListedStore], stays: &[bool]) -> OwnByte
    ensures { result ≡ own_kept stays.now (listed list.now) address own.now }
{
    OwnByte {
        place: store_kept(stays, list, address, own.place),
        byte: own.byte,
        atomic: own.atomic,
        needs: kept_before(stays, own.needs),
    }
}

/// Which of the stores that stay were done.
fn paid_kept(alloc: Global, paid: &[usize], stays: &[bool]) -> Result<Vec<usize>, OutOfMemory>
    ensures { IfOk result (λ v. (j : ℕ) →
        is_among paid.now (place_before stays.now j) ≡ true → is_among v.items j ≡ true) }
{
    let mut kept = Vec::new(alloc);
    for index in 0..paid.len() {
        add_paid(&mut kept, paid[index], stays)?;
    }
    Ok(kept)
}

/// Adds a store that was done, if it stays.
fn add_paid(kept: &mut Vec<usize>, store: usize, stays: &[bool]) -> Result<(), OutOfMemory>
    ensures stay { OnOk result ((j : ℕ) → is_among kept.old.items j ≡ true →
        is_among kept.new.items j ≡ true) }
    ensures there { OnOk result ((j : ℕ) → store ≡ place_before stays.now j →
        is_among kept.new.items j ≡ true) }
{
    if !stays_at(stays, store) {
        return Ok(());
    }
    kept.push(kept_before(stays, store))?;
    Ok(())
}
