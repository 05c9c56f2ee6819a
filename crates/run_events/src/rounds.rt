/// Some rounds of a run in a row; the first round of a run is 1. There are none where the last comes before the first.
#[derive(Clone, Copy)]
pub struct Rounds {
    /// The first of them.
    pub first: u32,
    /// The last of them.
    pub last: u32,
}
