//! What a hart writes: to bytes of its own, or to shared ones, where each store has its place in the list, comes next, or comes later.
use access_times::{Bytes, Operation};
use hart_step::{amo_value, sign_extended};
use hart_walks::{Against, Mode, Walk, number_from, private_number};
use memory_order::Registers;
use pages::{OutOfMemory, Store};
use run_states::{KnownDoubleword, OwnStore, RunState};
use rv64_decode::{AtomicOperation, AtomicWidth};
use store_lists::{Deed, LATER, ListedStore, Reserved, Time};

/// What writes.
#[derive(Clone, Copy)]
pub(crate) enum Writing {
    /// A plain store.
    Plain,
    /// An SC, under a reservation.
    Conditional(Reserved),
    /// An AMO.
    Atomic(AtomicOperation, AtomicWidth),
}

/// A store, an SC or an AMO that a run comes to.
#[derive(Clone, Copy)]
pub(crate) struct Put {
    pub(crate) operation: Operation,
    pub(crate) registers: Registers,
    pub(crate) bytes: Bytes,
    /// What the hart knows of its bytes.
    pub(crate) known: KnownDoubleword,
    /// The register that is written, or with which an AMO computes, cut to the width.
    pub(crate) value: u64,
    /// What that depends on.
    pub(crate) data: Time,
    /// What that or the address depends on.
    pub(crate) depends: Time,
    /// Before which time it can't be.
    pub(crate) bound: Time,
    pub(crate) writing: Writing,
}

/// What an AMO reads, and what is written.
#[derive(Clone, Copy)]
struct Written {
    old: u64,
    new: u64,
}

/// Where a store stands.
#[derive(Clone, Copy)]
struct Placed {
    /// Its place in the list plus one, or its time.
    at: Time,
    /// Whether it is one of the list.
    is_listed: bool,
    written: Written,
}

/// What is written over a number.
fn written_over(put: &Put, old: u64) -> Written {
    match put.writing {
        Writing::Atomic(operation, width) => Written {
            old,
            new: amo_value(operation, width, old, put.value),
        },
        Writing::Plain | Writing::Conditional(_) => Written {
            old: 0,
            new: put.value,
        },
    }
}

/// A store to bytes that no other hart touches.
pub(crate) fn put_private(
    walk: &mut Walk,
    against: Against<'_>,
    state: &mut RunState,
    put: &Put,
) -> Result<bool, OutOfMemory> {
    let old = private_number(against, &put.known, put.bytes, put.operation.address);
    let placed = Placed {
        at: put.bound,
        is_listed: false,
        written: if put.bound == LATER {
            Written {
                old: 0,
                new: put.value,
            }
        } else {
            written_over(put, old)
        },
    };
    let mut known = put.known;
    known.store_private(&own_store(put, &placed));
    do_put(walk, state, put, known, &placed)?;
    Ok(true)
}

/// A store to shared bytes. Answers whether the run is followed further at once.
pub(crate) fn put_shared(
    walk: &mut Walk,
    against: Against<'_>,
    state: &mut RunState,
    put: &Put,
) -> Result<bool, OutOfMemory> {
    if let Some((index, place)) = debt(against, state, put.bytes) {
        return pay(walk, against, state, put, index, place);
    }
    if walk.mode == Mode::Last {
        return change_nothing(walk, against, state, put);
    }
    walk.settle(
        state,
        !matches!(put.writing, Writing::Plain | Writing::Conditional(_)),
    )?;
    let next = come_next(walk, against, state, put)?;
    state.stores = state.stores.wrapping_add(1);
    put_listed(walk, state, put, later(put))?;
    match next {
        Some(next) => {
            walk.put_off(state.copy()?)?;
            walk.put_off(next)?;
            Ok(false)
        }
        None => Ok(true),
    }
}

/// The first of the hart's stores of the list that it has still to do, of those to some bytes: its index among these, and its place.
fn debt(against: Against<'_>, state: &RunState, bytes: Bytes) -> Option<(usize, Time)> {
    for (index, place) in state.owed.iter().enumerate() {
        if let Some(store) = against.list.get(*place) {
            if store.bytes().meet(bytes) {
                return Some((index, *place));
            }
        }
    }
    None
}

/// A store that is in the list already: it has to be that one, or there is no such run.
fn pay(
    walk: &mut Walk,
    against: Against<'_>,
    state: &mut RunState,
    put: &Put,
    index: usize,
    place: Time,
) -> Result<bool, OutOfMemory> {
    let written = written_at(against, put, place);
    if put.bound > place || !is_listed_at(against, put, written.new, place) {
        return Ok(false);
    }
    walk.look_back(state, place, None)?;
    if index < state.owed.len() {
        let _place = state.owed.remove(index);
    }
    state.stores = state.stores.wrapping_add(1);
    let placed = Placed {
        at: place.saturating_add(1),
        is_listed: true,
        written,
    };
    put_listed(walk, state, put, placed)?;
    if let (Some(next), true) = (state.next, state.owes_none()) {
        walk.come_next(state, next)?;
        return Ok(false);
    }
    Ok(true)
}

/// Whether the store at a place of the list is just this one.
fn is_listed_at(against: Against<'_>, put: &Put, value: u64, place: Time) -> bool {
    match against.list.get(place) {
        Some(listed) => {
            put.data != LATER
                && listed.store.address == put.operation.address
                && listed.store.width == put.operation.width
                && listed.store.value == value
                && is_atomic(against, put, place)
        }
        None => false,
    }
}

/// What is read and written at a place of the list.
fn written_at(against: Against<'_>, put: &Put, place: Time) -> Written {
    let sources = against.list.sources(put.bytes, place);
    let untouched = KnownDoubleword::untouched(put.bytes.doubleword);
    let address = put.operation.address;
    let old = number_from(against, &untouched, put.bytes, address, &sources);
    written_over(put, old)
}

/// Whether an SC can stand at a place: no other hart's store to the bytes of its reservation stands between what its LR read and it (the
/// atomicity axiom, manual, section 14.1).
fn is_atomic(against: Against<'_>, put: &Put, place: Time) -> bool {
    match put.writing {
        Writing::Conditional(reserved) => {
            !reserved.is_shared || !against.list.has_foreign(against.hart, &reserved, place)
        }
        Writing::Plain | Writing::Atomic(..) => true,
    }
}

/// Where nothing is stored any more, an AMO that changes nothing is a load, and each other store ends the run.
fn change_nothing(
    walk: &mut Walk,
    against: Against<'_>,
    state: &mut RunState,
    put: &Put,
) -> Result<bool, OutOfMemory> {
    let now = against.list.now();
    let written = written_at(against, put, now);
    if let Writing::Atomic(..) = put.writing {
        if written.new == written.old {
            let placed = Placed {
                at: now,
                is_listed: true,
                written,
            };
            put_listed(walk, state, put, placed)?;
            return Ok(true);
        }
    }
    Ok(false)
}

/// Has the store come next, where it can. Where its hart has still to do stores of the list, the run that is given goes on with it.
fn come_next(
    walk: &mut Walk,
    against: Against<'_>,
    state: &RunState,
    put: &Put,
) -> Result<Option<RunState>, OutOfMemory> {
    let now = against.list.now();
    let can = state.next.is_none()
        && put.bound != LATER
        && put.data != LATER
        && is_atomic(against, put, now);
    if !can {
        return Ok(None);
    }
    let store = ListedStore {
        hart: against.hart,
        store: Store {
            address: put.operation.address,
            width: put.operation.width,
            value: written_at(against, put, now).new,
        },
    };
    if state.owes_none() {
        walk.come_next(state, store)?;
        return Ok(None);
    }
    let mut next = state.copy()?;
    next.next = Some(store);
    next.stores = next.stores.wrapping_add(1);
    let placed = Placed {
        written: Written {
            old: 0,
            new: store.store.value,
        },
        ..later(put)
    };
    put_listed(walk, &mut next, put, placed)?;
    Ok(Some(next))
}

/// It comes later.
fn later(put: &Put) -> Placed {
    Placed {
        at: LATER,
        is_listed: true,
        written: Written {
            old: 0,
            new: put.value,
        },
    }
}

/// The store of the hart's own, where it stands.
fn own_store(put: &Put, placed: &Placed) -> OwnStore {
    OwnStore {
        address: put.operation.address,
        bytes: put.bytes,
        value: placed.written.new,
        at: placed.at,
        depends: put.depends,
        is_exclusive: !matches!(put.writing, Writing::Plain),
    }
}

/// A store to shared bytes is done.
fn put_listed(
    walk: &mut Walk,
    state: &mut RunState,
    put: &Put,
    placed: Placed,
) -> Result<(), OutOfMemory> {
    let mut known = put.known;
    known.store_shared(&own_store(put, &placed));
    do_put(walk, state, put, known, &placed)
}

/// A store, an SC that writes or an AMO is done.
fn do_put(
    walk: &mut Walk,
    state: &mut RunState,
    put: &Put,
    known: KnownDoubleword,
    placed: &Placed,
) -> Result<(), OutOfMemory> {
    let deed = Deed {
        step: state.hart.done,
        number: match put.writing {
            Writing::Atomic(..) => Some(placed.written.old),
            Writing::Plain | Writing::Conditional(_) => None,
        },
        holds: matches!(put.writing, Writing::Conditional(_)),
        time: placed.at,
        is_listed: placed.is_listed,
    };
    walk.note(state, deed)?;
    state.known.set(known)?;
    state.bounds.steer(state.bounds.of(put.registers.address));
    state
        .bounds
        .store(&put.registers, &put.operation, placed.at);
    if let Writing::Conditional(_) = put.writing {
        state.reserved = None;
    }
    let rd = put.registers.destination;
    let value = match put.writing {
        Writing::Atomic(..) => sign_extended(put.operation.width, placed.written.old),
        Writing::Plain | Writing::Conditional(_) => 0,
    };
    state.hart.go_on(rd, value);
    state.set_register(rd, value, placed.at);
    Ok(())
}
