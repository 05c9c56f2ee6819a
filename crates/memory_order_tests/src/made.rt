//! Events and traces by hand.

use pages::Width;
use pages::Width::{W1, W2, W8};
use rv64_decode::{AcquireRelease, FenceMode, FenceSet};
use std::alloc::Global;
use trace::{Access, Event, Phase, Trace};

const PLAIN: AcquireRelease = AcquireRelease {
    acquire: false,
    release: false,
};

const RELEASE: AcquireRelease = AcquireRelease {
    acquire: false,
    release: true,
};

pub(crate) const BOTH: FenceSet = FenceSet {
    reads: true,
    writes: true,
};

const STORES: FenceSet = FenceSet {
    reads: false,
    writes: true,
};

/// An access by hand, at the place that is its first number.
#[derive(Clone, Copy)]
pub(crate) enum Made {
    /// The address of a doubleword, and the number that is stored.
    Store(u64, u64, u64),
    /// The same with one byte.
    StoreByte(u64, u64, u64),
    /// The address of a doubleword, and the number that is loaded.
    Load(u64, u64, u64),
    /// The same with two bytes.
    LoadHalf(u64, u64, u64),
    /// A fence of all before it and all after it.
    Fence(u64),
    TotalFence(u64),
    /// A fence of the stores.
    StoreFence(u64),
    /// An LR of the doubleword at 0x100, and the number that it loads.
    Reserve(u64, u64),
    /// An SC to the doubleword at 0x100, and the number that it stores, or none where it fails.
    Conditional(u64, Option<u64>),
    /// An AMO that turns 0 into 1 at 0x108.
    Atomic(u64),
    /// The same as a release.
    Release(u64),
}

/// An event by hand: its round, its hart, its phase and its access.
pub(crate) type Row = (u32, u8, Phase, Made);

fn stored(width: Width, place: u64, address: u64, written: u64) -> Access {
    Access::Store {
        width,
        place,
        address,
        written,
    }
}

fn loaded(width: Width, place: u64, address: u64, read: u64) -> Access {
    Access::Load {
        width,
        place,
        address,
        read,
    }
}

pub(crate) fn store(place: u64, address: u64, written: u64) -> Access {
    stored(W8, place, address, written)
}

pub(crate) fn load(place: u64, address: u64, read: u64) -> Access {
    loaded(W8, place, address, read)
}

fn fence(place: u64, set: FenceSet, mode: FenceMode) -> Access {
    Access::Fence {
        before: set,
        after: set,
        mode,
        place,
    }
}

pub(crate) fn full_fence(place: u64) -> Access {
    fence(place, BOTH, FenceMode::Normal)
}

pub(crate) fn conditional(place: u64, written: Option<u64>) -> Access {
    Access::StoreConditional {
        width: W8,
        ordering: PLAIN,
        place,
        address: 0x100,
        written,
    }
}

fn reserve(place: u64, read: u64) -> Access {
    Access::LoadReserved {
        width: W8,
        ordering: PLAIN,
        place,
        address: 0x100,
        read,
    }
}

fn atomic(place: u64, ordering: AcquireRelease) -> Access {
    Access::Atomic {
        width: W8,
        ordering,
        place,
        address: 0x108,
        read: 0,
        written: 1,
    }
}

fn access_of(made: Made) -> Access {
    match made {
        Made::Store(place, address, written) => store(place, address, written),
        Made::StoreByte(place, address, written) => stored(W1, place, address, written),
        Made::Load(place, address, read) => load(place, address, read),
        Made::LoadHalf(place, address, read) => loaded(W2, place, address, read),
        Made::Fence(place) => full_fence(place),
        Made::TotalFence(place) => fence(place, BOTH, FenceMode::Tso),
        Made::StoreFence(place) => fence(place, STORES, FenceMode::Normal),
        Made::Reserve(place, read) => reserve(place, read),
        Made::Conditional(place, written) => conditional(place, written),
        Made::Atomic(place) => atomic(place, PLAIN),
        Made::Release(place) => atomic(place, RELEASE),
    }
}

/// These events.
pub(crate) fn events_of(alloc: Global, rows: &[Row]) -> Option<Vec<Event>> {
    let mut events = Vec::new(alloc);
    for (round, hart, phase, made) in rows {
        let event = Event {
            access: access_of(*made),
            round: *round,
            hart: *hart,
            phase: *phase,
        };
        events.push(event).ok()?;
    }
    Some(events)
}

/// The trace of these events over memory of zeros, if they make one.
pub(crate) fn trace_of(alloc: Global, rows: &[Row]) -> Option<Trace> {
    Trace::of(Vec::new(alloc), events_of(alloc, rows)?)
}
