//! An access in brief: a plain load or store, or a fence, in a form that takes less memory.

ghost use Rattle.std.specs.Prelude.{◌≡◌, ◌+◌, ◌%◌, ◌^◌, IfSome};
ghost use Rattle.trace.specs.Briefs.{widened};

use pages::Width;
use round_schedule::Access;
use rv64_decode::{FenceMode, FenceSet};
use std::mem::size_of;

/// A plain load or store, or a fence. Its place is counted from a base, and below 2^16; its address is below 2^32.
#[derive(Clone, Copy)]
pub(crate) enum BriefAccess {
    Load {
        width: Width,
        place: u16,
        address: u32,
        read: u64,
    },
    Store {
        width: Width,
        place: u16,
        address: u32,
        written: u64,
    },
    // The place first, where it stands in the other two: a copy then needs no case.
    Fence {
        place: u16,
        before: FenceSet,
        after: FenceSet,
        mode: FenceMode,
    },
}

// Most of a long run's memory is accesses.
const _: () = prove!(size_of::<BriefAccess>() == 16);

impl BriefAccess {
    /// An access in brief, if it has such a form with its place counted from `base`.
    #[inline]
    pub(crate) fn of(access: &Access, base: u64) -> Option<BriefAccess>
        ensures { IfSome result (λ b. widened base b ≡ access.now) }
    {
        let place = distance(base, access.place())?;
        match *access {
            Access::Load {
                width,
                address,
                read,
                ..
            } => Some(BriefAccess::Load {
                width,
                place,
                address: small(address)?,
                read,
            }),
            Access::Store {
                width,
                address,
                written,
                ..
            } => Some(BriefAccess::Store {
                width,
                place,
                address: small(address)?,
                written,
            }),
            Access::Fence {
                before,
                after,
                mode,
                ..
            } => Some(BriefAccess::Fence {
                place,
                before,
                after,
                mode,
            }),
            _ => None,
        }
    }

    /// The access.
    #[inline]
    pub(crate) fn access(&self, base: u64) -> Access
        ensures { result ≡ widened base self.now }
    {
        match *self {
            BriefAccess::Load {
                width,
                place,
                address,
                read,
            } => Access::Load {
                width,
                place: base.wrapping_add(u64::from(place)),
                address: u64::from(address),
                read,
            },
            BriefAccess::Store {
                width,
                place,
                address,
                written,
            } => Access::Store {
                width,
                place: base.wrapping_add(u64::from(place)),
                address: u64::from(address),
                written,
            },
            BriefAccess::Fence {
                place,
                before,
                after,
                mode,
            } => Access::Fence {
                before,
                after,
                mode,
                place: base.wrapping_add(u64::from(place)),
            },
        }
    }
}

/// How far a place is above a base, if it is so by less than 2^16.
#[inline]
pub(crate) fn distance(base: u64, place: u64) -> Option<u16>
    ensures { IfSome result (λ d. (base + d) % 2 ^ 64 ≡ place) }
{
    // From a place below the base it wraps around, as the sum does that gives the place back.
    let distance = place.wrapping_sub(base);
    if distance <= 0xffff {
        Some(distance as u16)
    } else {
        None
    }
}

/// A number that is below 2^32.
#[inline]
fn small(number: u64) -> Option<u32>
    ensures { IfSome result (λ n. n ≡ number) }
{
    if number <= 0xffff_ffff {
        Some(number as u32)
    } else {
        None
    }
}
