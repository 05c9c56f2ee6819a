/// A time: a number of stores. What has a time stands behind the first so many stores of the list, and before the next one.
pub type Time = u32;

/// A time behind the store that comes next, which isn't known: what is read then isn't known either.
pub const LATER: Time = u32::MAX;

/// For each byte of a doubleword the store that it is read from: its place in the list plus one, or 0 for the byte that memory opened
/// with.
pub type ByteSources = [Time; 8];
