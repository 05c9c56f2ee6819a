use round_schedule::Phase;

/// What is said of a hart in a list of threads.
#[derive(Clone, Copy)]
pub struct ThreadNote {
    /// The hart's number.
    pub hart: u32,
    /// The round; the first is 1.
    pub round: u32,
    /// The phase of the round.
    pub phase: Phase,
    /// How many instructions the hart has done since the run began.
    pub place: u64,
    /// Whether its part of the parallel phase is over before its quota, and its serial turn has not begun.
    pub waits: bool,
    /// How many bytes its stores cover that are not committed.
    pub uncommitted: u64,
    /// The code with which the hart stopped, and the value that the exit call gave; none while it runs.
    pub stop: Option<(u8, u64)>,
}
