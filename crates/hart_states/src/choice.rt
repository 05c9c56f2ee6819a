use round_schedule::Access;
use rv64_decode::Instr;

/// A move, as it is found.
#[derive(Clone, Copy)]
pub struct Choice {
    /// The instruction.
    pub instruction: Instr,
    /// Its access, without numbers.
    pub access: Access,
    /// Its time.
    pub time: usize,
    /// What the destination register gets.
    pub result: Option<u64>,
    /// What memory gets.
    pub written: Option<u64>,
    /// Of each byte that it loads, the place behind the store that it is from.
    pub sources: [usize; 8],
    /// The address of the next instruction.
    pub next: u64,
}
