ghost use Rattle.std.specs.Prelude.{◌≡◌, ◌≤◌};
ghost use Rattle.pages.specs.Memory.{byte_of};
ghost use Rattle.round_schedule.specs.Accesses.{address_of, byte_read, byte_written, bytes_of, loads, place_of, read_of, stores, written_of};

use pages::Width;
use rv64_decode::{AcquireRelease, FenceMode, FenceSet};

/// What one instruction did to memory, or the fence that it was.
///
/// `place` is the number of instructions that the hart had done before this one. `read` and `written`
/// are the numbers in memory, without any extension.
#[derive(Clone, Copy, Debug, PartialEq, Eq)]
pub enum Access {
    /// A plain load (manual, section 2.6).
    Load {
        width: Width,
        place: u64,
        address: u64,
        read: u64,
    },
    /// A plain store (manual, section 2.6).
    Store {
        width: Width,
        place: u64,
        address: u64,
        written: u64,
    },
    /// A load-reserved, LR (manual, section 8.2).
    LoadReserved {
        width: Width,
        ordering: AcquireRelease,
        place: u64,
        address: u64,
        read: u64,
    },
    /// A store-conditional, SC (manual, section 8.2): it wrote a value, or it failed.
    StoreConditional {
        width: Width,
        ordering: AcquireRelease,
        place: u64,
        address: u64,
        written: Option<u64>,
    },
    /// An atomic memory operation, AMO (manual, section 8.4).
    Atomic {
        width: Width,
        ordering: AcquireRelease,
        place: u64,
        address: u64,
        read: u64,
        written: u64,
    },
    /// A fence, which touches no byte (manual, section 2.7).
    Fence {
        before: FenceSet,
        after: FenceSet,
        mode: FenceMode,
        place: u64,
    },
}

/// The answer of one instruction.
#[derive(Clone, Copy, Debug, PartialEq, Eq)]
pub enum Stepped {
    /// It is done, and left this access where it made one.
    Done(Option<Access>),
    /// It has to wait for the serial phase, and changed nothing.
    Waits,
    /// It stopped its hart with this code, and changed nothing else.
    Stopped(u8),
}

impl Access {
    /// How many instructions the hart had done before this one.
    pub fn place(&self) -> u64
        ensures { result ≡ place_of self.now }
    {
        match *self {
            Access::Load { place, .. }
            | Access::Store { place, .. }
            | Access::LoadReserved { place, .. }
            | Access::StoreConditional { place, .. }
            | Access::Atomic { place, .. }
            | Access::Fence { place, .. } => place,
        }
    }

    /// The address of its first byte; 0 for a fence.
    #[inline]
    pub fn address(&self) -> u64
        ensures { result ≡ address_of self.now }
    {
        match *self {
            Access::Load { address, .. }
            | Access::Store { address, .. }
            | Access::LoadReserved { address, .. }
            | Access::StoreConditional { address, .. }
            | Access::Atomic { address, .. } => address,
            Access::Fence { .. } => 0,
        }
    }

    /// How many bytes it is of, 1 to 8; 0 for a fence.
    #[inline]
    pub fn byte_count(&self) -> u64
        ensures count { result ≡ bytes_of self.now }
        ensures few { result ≤ 8 }
    {
        match *self {
            Access::Load { width, .. }
            | Access::Store { width, .. }
            | Access::LoadReserved { width, .. }
            | Access::StoreConditional { width, .. }
            | Access::Atomic { width, .. } => width.bytes(),
            Access::Fence { .. } => 0,
        }
    }

    /// Whether it is a load of the memory model: a load, an LR or an AMO (manual, section 14.1).
    #[inline]
    pub fn loads(&self) -> bool
        ensures { result ≡ loads self.now }
    {
        matches!(
            self,
            Access::Load { .. } | Access::LoadReserved { .. } | Access::Atomic { .. }
        )
    }

    /// Whether it is a store of the memory model: a store, an SC that wrote or an AMO (manual, section 14.1).
    #[inline]
    pub fn stores(&self) -> bool
        ensures { result ≡ stores self.now }
    {
        match *self {
            Access::Store { .. } | Access::Atomic { .. } => true,
            Access::StoreConditional { written, .. } => written.is_some(),
            Access::Load { .. } | Access::LoadReserved { .. } | Access::Fence { .. } => false,
        }
    }

    /// The number that it read, where it is a load of the memory model.
    #[inline]
    pub fn number_read(&self) -> Option<u64>
        ensures { result ≡ read_of self.now }
    {
        match *self {
            Access::Load { read, .. }
            | Access::LoadReserved { read, .. }
            | Access::Atomic { read, .. } => Some(read),
            Access::Store { .. } | Access::StoreConditional { .. } | Access::Fence { .. } => None,
        }
    }

    /// The number that it wrote, where it is a store of the memory model.
    #[inline]
    pub fn number_written(&self) -> Option<u64>
        ensures { result ≡ written_of self.now }
    {
        match *self {
            Access::Store { written, .. } | Access::Atomic { written, .. } => Some(written),
            Access::StoreConditional { written, .. } => written,
            Access::Load { .. } | Access::LoadReserved { .. } | Access::Fence { .. } => None,
        }
    }

    /// The byte that it read at an address of its own; 0 where it is no load.
    #[inline]
    pub fn byte_read(&self, address: u64) -> u8
        ensures { result ≡ byte_read self.now address }
    {
        byte_of(
            self.number_read().unwrap_or(0),
            address.saturating_sub(self.address()),
        )
    }

    /// The byte that it wrote at an address of its own; 0 where it is no store.
    #[inline]
    pub fn byte_written(&self, address: u64) -> u8
        ensures { result ≡ byte_written self.now address }
    {
        byte_of(
            self.number_written().unwrap_or(0),
            address.saturating_sub(self.address()),
        )
    }
}

/// Byte `k` of a number, the least significant first; 0 past its eight.
fn byte_of(number: u64, k: u64) -> u8
    ensures { result ≡ byte_of number k }
{
    if k < 8 {
        ((number >> (8 * k)) % 256) as u8
    } else {
        0
    }
}
