/// How many bytes an access touches.
#[derive(Clone, Copy, Debug, PartialEq, Eq)]
pub enum Width {
    /// One byte.
    W1,
    /// Two bytes, a halfword.
    W2,
    /// Four bytes, a word.
    W4,
    /// Eight bytes, a doubleword.
    W8,
}

impl Width {
    ghost use Rattle.std.specs.Prelude.{◌≡◌};
    ghost use Rattle.pages.specs.Memory.{width_bytes};

    /// How many bytes these are.
    #[inline(always)]
    pub fn bytes(self) -> u64
        ensures { result ≡ width_bytes self }
    {
        match self {
            Width::W1 => 1,
            Width::W2 => 2,
            Width::W4 => 4,
            Width::W8 => 8,
        }
    }
}

/// Why an access is not done.
#[derive(Clone, Copy, Debug, PartialEq, Eq)]
pub enum Fault {
    /// A load at an address that is not a multiple of its width: stop code 5.
    LoadMisaligned,
    /// A load of a byte outside guest memory: stop code 6.
    LoadOutside,
    /// A store at an address that is not a multiple of its width: stop code 7.
    StoreMisaligned,
    /// A store to a byte outside guest memory: stop code 8.
    StoreOutside,
    /// A store to a byte of a code range: stop code 9.
    StoreToCode,
}

/// The low bytes of a value, to be written from an address on, least significant first.
#[derive(Clone, Copy, Debug, PartialEq, Eq)]
pub struct Store {
    /// The address of the first byte.
    pub address: u64,
    /// How many bytes are written.
    pub width: Width,
    /// The number whose low bytes are written.
    pub value: u64,
}

/// The addresses from `start` on, `len` of them.
#[derive(Clone, Copy, PartialEq, Eq)]
pub struct Range {
    /// The first address.
    pub start: u64,
    /// How many addresses there are.
    pub len: u64,
}

/// Bytes that lie in memory from an address on.
#[derive(Drop)]
pub struct Piece {
    /// The address of the first byte.
    pub start: u64,
    /// The bytes, in rising address.
    pub bytes: Vec<u8>,
}
