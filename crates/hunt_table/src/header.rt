use crate::fingerprint::Fingerprint;
use crate::seen_range::SeenRange;

/// What a hunt was asked for: its plans are `count` of a family's, from `first` on.
#[derive(Drop)]
pub struct Header {
    /// A weak hunt: each number stands for an execution in which loads read old values and stores come late.
    pub is_weak: bool,
    pub seed: u64,
    pub first: u32,
    pub count: u32,
    /// The program; none in a table that was written before tables told of it.
    pub program: Option<Fingerprint>,
    /// The bytes that are looked at. The seen bytes of an ending are those of all ranges, one after the other.
    pub ranges: Vec<SeenRange>,
}
