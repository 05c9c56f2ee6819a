use round_schedule::Phase;

/// A moment of a round: a hart after so many of the instructions that it does in it.
#[derive(Clone, Copy)]
pub struct Place {
    /// The phase in which its next instruction is, or the one that stopped it.
    pub phase: Phase,
    /// The hart's number.
    pub hart: u32,
    /// How many it has done, those of both phases together.
    pub count: u64,
}
