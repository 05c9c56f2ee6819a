/// The numbers that a debugger is shown of a hart: those of the hart, and where in the run it is.
#[derive(Clone, Copy)]
pub struct Registers {
    /// Registers x0 to x31.
    pub x: [u64; 32],
    /// The address of the hart's next instruction.
    pub pc: u64,
    /// The round; the first is 1.
    pub round: u64,
    /// How many instructions the hart has done since the run began.
    pub place: u64,
    /// 0 in the parallel phase, and 1 from the commit on.
    pub phase: u64,
}
