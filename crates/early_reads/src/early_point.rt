//! What is known of the code at an instruction.
use pages::Width;

/// Which kinds of operations of a hart are late, and whether it may do others early.
#[derive(Clone, Copy)]
pub struct LateKinds {
    /// A load.
    pub loads: bool,
    /// A store.
    pub stores: bool,
    /// Whether stores that come may be early: the hart owes some of the list.
    pub owes: bool,
}

/// Bytes that an instruction loads.
#[derive(Clone, Copy)]
pub struct LoadedBytes {
    /// The address of the first one.
    pub address: u64,
    /// How many they are.
    pub width: Width,
}

/// Bytes that may be loaded early.
#[derive(Drop)]
pub enum EarlyBytes {
    /// All.
    All,
    /// Those of these loads.
    Among(Vec<LoadedBytes>),
}

/// What may be loaded early from an instruction on, by what is late.
#[derive(Drop)]
pub struct EarlySets {
    /// Where a load is late.
    pub after_load: EarlyBytes,
    /// Where a store is.
    pub after_store: EarlyBytes,
    /// Where both are.
    pub after_both: EarlyBytes,
}

/// What is known at an instruction.
#[derive(Drop)]
pub struct EarlyPoint {
    /// Its address.
    pub pc: u64,
    /// The registers, as far as they are numbers of the code. What stands at the place of x0 is not looked at.
    pub constants: [Option<u64>; 32],
    /// What may be loaded early from there on, where each store that comes is late.
    pub paid: EarlySets,
    /// The same where the hart owes stores of the list.
    pub owing: EarlySets,
}
