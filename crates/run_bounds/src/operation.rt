//! What an instruction does to memory, over the registers of a hart.
ghost use Rattle.std.specs.Prelude.{◌≡◌, false, option_map};
ghost use Rattle.rv64_decode.specs.Atomics.{atomic_of};
ghost use Rattle.hart_step.specs.Effect.{action};
ghost use Rattle.hart_step.specs.Numbers.{plus};
ghost use Rattle.hart_step.specs.Registers.{reg};
ghost use Rattle.run_bounds.specs.Operations.{access_of, atomic_in, operation_in, plain_in, width_in};

use hart_step::Hart;
use pages::Width;
use round_schedule::Access;
use rv64_decode::{AcquireRelease, Atomic, AtomicWidth, Instr, Reg};

/// The kinds of memory operations (manual, section 14.1).
#[derive(Clone, Copy, PartialEq, Eq)]
pub enum Kind {
    /// A plain load.
    Load,
    /// A plain store.
    Store,
    /// An LR.
    LoadReserved,
    /// An SC.
    StoreConditional,
    /// An AMO.
    Atomic,
}

/// A memory operation that comes next.
#[derive(Clone, Copy)]
pub struct Operation {
    /// Its kind.
    pub kind: Kind,
    /// The address of its first byte.
    pub address: u64,
    /// How many bytes it is of.
    pub width: Width,
    /// Its annotations.
    pub ordering: AcquireRelease,
    /// Whether a number that it reads is sign-extended.
    pub signed: bool,
}

/// The operation of an instruction, where it is one.
#[tactic(auto, using(crate::proofs::Operations::by_extension))]
pub fn operation_of(h: &Hart, i: &Instr) -> Option<Operation>
    ensures { result ≡ operation_in (action i.now h.now.x h.now.pc) }
{
    match plain_operation(h, i) {
        Some(operation) => Some(operation),
        None => atomic_operation(h, i),
    }
}

fn plain_operation(h: &Hart, i: &Instr) -> Option<Operation>
    ensures { result ≡ plain_in (action i.now h.now.x h.now.pc) }
{
    match *i {
        Instr::Lb { rs1, imm, .. } => Some(plain(h, Kind::Load, rs1, imm, Width::W1, true)),
        Instr::Lh { rs1, imm, .. } => Some(plain(h, Kind::Load, rs1, imm, Width::W2, true)),
        Instr::Lw { rs1, imm, .. } => Some(plain(h, Kind::Load, rs1, imm, Width::W4, true)),
        Instr::Lbu { rs1, imm, .. } => Some(plain(h, Kind::Load, rs1, imm, Width::W1, false)),
        Instr::Lhu { rs1, imm, .. } => Some(plain(h, Kind::Load, rs1, imm, Width::W2, false)),
        Instr::Lwu { rs1, imm, .. } => Some(plain(h, Kind::Load, rs1, imm, Width::W4, false)),
        Instr::Ld { rs1, imm, .. } => Some(plain(h, Kind::Load, rs1, imm, Width::W8, false)),
        Instr::Sb { rs1, imm, .. } => Some(plain(h, Kind::Store, rs1, imm, Width::W1, false)),
        Instr::Sh { rs1, imm, .. } => Some(plain(h, Kind::Store, rs1, imm, Width::W2, false)),
        Instr::Sw { rs1, imm, .. } => Some(plain(h, Kind::Store, rs1, imm, Width::W4, false)),
        Instr::Sd { rs1, imm, .. } => Some(plain(h, Kind::Store, rs1, imm, Width::W8, false)),
        _ => None,
    }
}

/// A plain load or store at an offset from what a register holds.
fn plain(h: &Hart, kind: Kind, base: Reg, offset: u64, width: Width, signed: bool) -> Operation
    ensures { result ≡ record {
      kind = kind;
      address = plus (reg h.now.x base) offset;
      width = width;
      ordering = record { acquire = false; release = false };
      signed = signed;
    } }
{
    Operation {
        kind,
        address: h.reg(base).wrapping_add(offset),
        width,
        ordering: AcquireRelease {
            acquire: false,
            release: false,
        },
        signed,
    }
}

fn atomic_operation(h: &Hart, i: &Instr) -> Option<Operation>
    ensures { result ≡ option_map (atomic_in h.now.x) (atomic_of i.now) }
{
    match i.atomic() {
        Some(word) => Some(of_atomic(h, word)),
        None => None,
    }
}

fn of_atomic(h: &Hart, word: Atomic) -> Operation
    ensures { result ≡ atomic_in h.now.x word }
{
    let (kind, base, width, ordering) = match word {
        Atomic::LoadReserved {
            rs1,
            width,
            ordering,
            ..
        } => (Kind::LoadReserved, rs1, width, ordering),
        Atomic::StoreConditional {
            rs1,
            width,
            ordering,
            ..
        } => (Kind::StoreConditional, rs1, width, ordering),
        Atomic::Operation {
            rs1,
            width,
            ordering,
            ..
        } => (Kind::Atomic, rs1, width, ordering),
    };
    Operation {
        kind,
        address: h.reg(base),
        width: width_of(width),
        ordering,
        signed: true,
    }
}

fn width_of(width: AtomicWidth) -> Width
    ensures { result ≡ width_in width }
{
    match width {
        AtomicWidth::Word => Width::W4,
        AtomicWidth::Doubleword => Width::W8,
    }
}

impl Operation {
    /// Its access, without numbers; of an SC that of one that writes.
    pub fn access(&self) -> Access
        ensures { result ≡ access_of self.now }
    {
        let (width, ordering, address) = (self.width, self.ordering, self.address);
        match self.kind {
            Kind::Load => Access::Load {
                width,
                place: 0,
                address,
                read: 0,
            },
            Kind::Store => Access::Store {
                width,
                place: 0,
                address,
                written: 0,
            },
            Kind::LoadReserved => Access::LoadReserved {
                width,
                ordering,
                place: 0,
                address,
                read: 0,
            },
            Kind::StoreConditional => Access::StoreConditional {
                width,
                ordering,
                place: 0,
                address,
                written: Some(0),
            },
            Kind::Atomic => Access::Atomic {
                width,
                ordering,
                place: 0,
                address,
                read: 0,
                written: 0,
            },
        }
    }
}
