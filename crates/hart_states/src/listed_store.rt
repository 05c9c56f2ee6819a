use pages::Width;

/// A store of a list, which stands for the order of global memory.
#[derive(Clone, Copy, PartialEq, Eq)]
pub struct ListedStore {
    /// The hart that does it.
    pub hart: u8,
    /// The address of its first byte.
    pub address: u64,
    /// How many bytes it writes.
    pub width: Width,
    /// The number in them.
    pub number: u64,
}

impl ListedStore {
    ghost use Rattle.std.specs.Prelude.{◌≡◌};
    ghost use Rattle.all_endings.specs.StoreLists.{has_byte};
    ghost use Rattle.hart_states.specs.States.{stored_of};

    /// Whether it writes a byte.
    pub fn writes(&self, x: u64) -> bool
        ensures { result ≡ has_byte (stored_of self.now) x }
    {
        self.address <= x && x - self.address < self.width.bytes()
    }
}
