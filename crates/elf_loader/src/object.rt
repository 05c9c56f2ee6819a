/// Where an object of a program lies in memory.
#[derive(Clone, Copy)]
pub struct Object {
    /// The address of its first byte.
    pub address: u64,
    /// How many bytes it has, 1 or more.
    pub length: u64,
}
