use hart_step::Hart;
use pages::Width;
use rv64_decode::{AcquireRelease, Atomic, AtomicWidth, Instr, Reg};

/// The kinds of memory operations (manual, section 14.1).
#[derive(Clone, Copy, PartialEq, Eq)]
pub enum Kind {
    /// A plain load.
    Load,
    /// A plain store.
    Store,
    /// An LR.
    LoadReserved,
    /// An SC.
    StoreConditional,
    /// An AMO.
    Atomic,
}

/// What a hart's next instruction is about to do to memory.
#[derive(Clone, Copy)]
pub struct Operation {
    /// Its kind.
    pub kind: Kind,
    /// The address of its first byte.
    pub address: u64,
    /// How many bytes it is of.
    pub width: Width,
    /// Its annotations.
    pub ordering: AcquireRelease,
}

/// The ordering of what is neither LR, SC nor AMO.
const PLAIN: AcquireRelease = AcquireRelease {
    acquire: false,
    release: false,
};

impl Operation {
    /// Whether it has an acquire annotation: an LR or AMO with aq, and an SC with both bits.
    pub fn acquires(&self) -> bool {
        match self.kind {
            Kind::StoreConditional => self.ordering.acquire && self.ordering.release,
            _ => self.ordering.acquire,
        }
    }

    /// Whether it has a release annotation: an SC or AMO with rl, and an LR with both bits.
    pub fn releases(&self) -> bool {
        match self.kind {
            Kind::LoadReserved => self.ordering.acquire && self.ordering.release,
            _ => self.ordering.release,
        }
    }

    /// Whether it is a load, an LR or an AMO.
    pub fn loads(&self) -> bool {
        matches!(self.kind, Kind::Load | Kind::LoadReserved | Kind::Atomic)
    }

    /// Whether it is a store, an SC or an AMO.
    pub fn stores(&self) -> bool {
        matches!(
            self.kind,
            Kind::Store | Kind::StoreConditional | Kind::Atomic
        )
    }
}

/// What an instruction is about to do to memory, where it is a memory operation.
pub fn operation_of(h: &Hart, i: &Instr) -> Option<Operation> {
    match *i {
        Instr::Lb { rs1, imm, .. } | Instr::Lbu { rs1, imm, .. } => {
            Some(plain(h, Kind::Load, rs1, imm, Width::W1))
        }
        Instr::Lh { rs1, imm, .. } | Instr::Lhu { rs1, imm, .. } => {
            Some(plain(h, Kind::Load, rs1, imm, Width::W2))
        }
        Instr::Lw { rs1, imm, .. } | Instr::Lwu { rs1, imm, .. } => {
            Some(plain(h, Kind::Load, rs1, imm, Width::W4))
        }
        Instr::Ld { rs1, imm, .. } => Some(plain(h, Kind::Load, rs1, imm, Width::W8)),
        Instr::Sb { rs1, imm, .. } => Some(plain(h, Kind::Store, rs1, imm, Width::W1)),
        Instr::Sh { rs1, imm, .. } => Some(plain(h, Kind::Store, rs1, imm, Width::W2)),
        Instr::Sw { rs1, imm, .. } => Some(plain(h, Kind::Store, rs1, imm, Width::W4)),
        Instr::Sd { rs1, imm, .. } => Some(plain(h, Kind::Store, rs1, imm, Width::W8)),
        _ => match i.atomic() {
            Some(word) => Some(atomic(h, word)),
            None => None,
        },
    }
}

/// A plain load or store at an offset from what a register holds.
fn plain(h: &Hart, kind: Kind, base: Reg, offset: u64, width: Width) -> Operation {
    Operation {
        kind,
        address: h.reg(base).wrapping_add(offset),
        width,
        ordering: PLAIN,
    }
}

/// The same of an instruction of the A extension.
fn atomic(h: &Hart, word: Atomic) -> Operation {
    match word {
        Atomic::LoadReserved {
            rs1,
            width,
            ordering,
            ..
        } => at(h, Kind::LoadReserved, rs1, width, ordering),
        Atomic::StoreConditional {
            rs1,
            width,
            ordering,
            ..
        } => at(h, Kind::StoreConditional, rs1, width, ordering),
        Atomic::Operation {
            rs1,
            width,
            ordering,
            ..
        } => at(h, Kind::Atomic, rs1, width, ordering),
    }
}

/// An operation of the A extension at the address in a register.
fn at(h: &Hart, kind: Kind, base: Reg, width: AtomicWidth, ordering: AcquireRelease) -> Operation {
    let width = match width {
        AtomicWidth::Word => Width::W4,
        AtomicWidth::Doubleword => Width::W8,
    };
    Operation {
        kind,
        address: h.reg(base),
        width,
        ordering,
    }
}
