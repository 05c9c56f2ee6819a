use pages::Width;

/// The bytes of one access: `width` of them from `address` on.
#[derive(Clone, Copy, PartialEq, Eq)]
pub struct Span {
    /// The address of the first byte.
    pub address: u64,
    /// How many bytes there are.
    pub width: Width,
}
