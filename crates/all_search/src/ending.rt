use crate::executing::FoundExecution;
use run_states::RunEnd;

/// How a hart ends.
#[derive(Drop)]
pub struct HartEnding {
    /// How it stops, or where it waits for ever.
    pub end: RunEnd,
    /// What it put out.
    pub output: Vec<u8>,
}

/// An ending of a guest.
#[derive(Drop)]
pub struct Ending {
    /// How each hart ends.
    pub harts: Vec<HartEnding>,
    /// The bytes of each range of memory that is looked at.
    pub seen: Vec<Vec<u8>>,
    /// An execution that ends so.
    pub execution: FoundExecution,
}
