ghost use Rattle.std.specs.Prelude.{◌<◌};

use pages::Width;

/// Some bytes of an aligned doubleword of memory.
#[derive(Clone, Copy, PartialEq, Eq)]
pub struct Bytes {
    /// The number of the doubleword: its address divided by 8.
    pub doubleword: u64,
    /// Bit k says that byte k of it is one of them.
    pub mask: u8,
}

impl Bytes {
    /// The bytes of an aligned access.
    #[inline]
    pub fn of(address: u64, width: Width) -> Bytes {
        let first = match width {
            Width::W1 => 0x01u8,
            Width::W2 => 0x03,
            Width::W4 => 0x0f,
            Width::W8 => 0xff,
        };
        Bytes {
            doubleword: address / 8,
            mask: first << ((address % 8) as u32),
        }
    }

    /// Those of them that are not among others.
    #[inline]
    pub fn without(self, other: Bytes) -> Bytes {
        let mask = if self.doubleword == other.doubleword {
            self.mask & (other.mask ^ 0xff)
        } else {
            self.mask
        };
        Bytes { mask, ..self }
    }

    /// Whether they have a byte in common.
    #[inline]
    pub fn meet(self, other: Bytes) -> bool {
        self.doubleword == other.doubleword && self.mask & other.mask != 0
    }
}

/// How many bits of a doubleword stand below the first byte of an access.
#[inline]
pub fn shift_of(address: u64) -> u32
    ensures { result < 64 }
{
    8 * (address % 8) as u32
}

/// The bits of so many bytes.
fn low_bits(width: Width) -> u64 {
    match width {
        Width::W1 => 0xff,
        Width::W2 => 0xffff,
        Width::W4 => 0xffff_ffff,
        Width::W8 => u64::MAX,
    }
}

/// A doubleword with the low bytes of a value laid over it, where an aligned access at this address has them.
pub(crate) fn laid_over(doubleword: u64, address: u64, width: Width, value: u64) -> u64 {
    let bits = low_bits(width) << shift_of(address);
    let laid = (value & low_bits(width)) << shift_of(address);
    (doubleword & (bits ^ u64::MAX)) | laid
}
