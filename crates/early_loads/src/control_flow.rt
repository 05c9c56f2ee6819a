use rv64_decode::Instr;

/// Where a hart goes on behind an instruction.
#[derive(Clone, Copy)]
pub(crate) enum Next {
    /// Nowhere.
    Nowhere,
    /// At the next word, unless it stops.
    On,
    /// So far on.
    Jump(u64),
    /// So far on, or at the next word.
    Branch(u64),
    /// At an address that a register holds.
    Anywhere,
}

/// Where a hart goes on behind an instruction.
pub(crate) fn next_of(i: &Instr) -> Next {
    match *i {
        Instr::Jal { imm, .. } => Next::Jump(imm),
        Instr::Jalr { .. } => Next::Anywhere,
        Instr::Beq { imm, .. }
        | Instr::Bne { imm, .. }
        | Instr::Blt { imm, .. }
        | Instr::Bge { imm, .. }
        | Instr::Bltu { imm, .. }
        | Instr::Bgeu { imm, .. } => Next::Branch(imm),
        Instr::Ebreak => Next::Nowhere,
        _ => Next::On,
    }
}

/// Whether it is a fence that keeps the loads before it before those behind it.
pub(crate) fn orders_loads(i: &Instr) -> bool {
    match *i {
        Instr::Fence { before, after, .. } => before.reads && after.reads,
        _ => false,
    }
}
