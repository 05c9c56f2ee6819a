//! What a hart's run keeps of the bytes that it has touched.
ghost use Rattle.std.specs.Prelude.{◌≡◌, ◌==◌, ◌<◌, ℕ, if◌then◌else◌, OnOk};
ghost use Rattle.run_bounds.specs.Touched.{known_at};

use pages::OutOfMemory;

/// The last store of a hart to a byte.
#[derive(Clone, Copy, PartialEq, Eq)]
pub struct OwnByte {
    /// The time behind it.
    pub place: usize,
    /// What it wrote, where that is known.
    pub byte: Option<u8>,
    /// Rule 3: whether it is an AMO or an SC.
    pub atomic: bool,
    /// Rule 12: what its address and data depend on.
    pub needs: usize,
}

/// What a hart did to a byte.
#[derive(Clone, Copy, PartialEq, Eq)]
pub struct TouchedByte {
    /// The address of the byte.
    pub address: u64,
    /// Rule 1: the time behind the operations on it.
    pub touched: usize,
    /// Rule 2: the place behind the latest store that a load has read.
    pub seen: usize,
    /// The last own store.
    pub own: Option<OwnByte>,
}

/// What is kept of a byte: nothing of one that the hart hasn't touched.
pub fn byte_known(bytes: &[TouchedByte], address: u64) -> TouchedByte
    ensures { result ≡ known_at bytes.now address }
{
    for byte in bytes {
        if byte.address == address {
            return *byte;
        }
    }
    TouchedByte {
        address,
        touched: 0,
        seen: 0,
        own: None,
    }
}

/// Keeps this of a byte, in place of what was kept of it.
///
/// # Errors
///
/// `OutOfMemory` alone.
pub fn set_byte(bytes: &mut Vec<TouchedByte>, byte: TouchedByte) -> Result<(), OutOfMemory>
    ensures { OnOk result ((x : ℕ) → known_at bytes.new.items x ≡
        (if byte.address == x then byte else known_at bytes.old.items x)) }
{
    for index in 0..bytes.len() {
        if bytes[index].address == byte.address {
            bytes[index] = byte;
            return Ok(());
        }
    }
    bytes.push(byte)?;
    Ok(())
}
