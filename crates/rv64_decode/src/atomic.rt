ghost use Rattle.std.specs.Prelude.{◌≡◌};
ghost use Rattle.rv64_decode.specs.Atomics.{atomic_of, operation_of};

use crate::instruction::Instr;
use crate::ordering::AcquireRelease;
use crate::register::Reg;

/// What an AMO puts in place of the number in memory, from that number and a register (manual, section 8.4).
#[derive(Clone, Copy, Debug, PartialEq, Eq)]
pub enum AtomicOperation {
    /// The register.
    Swap,
    /// The sum.
    Add,
    /// The bits in which they differ.
    Xor,
    /// The bits that both have.
    And,
    /// The bits that one of them has.
    Or,
    /// The lesser of them, both signed.
    Min,
    /// The greater of them, both signed.
    Max,
    /// The lesser of them, both unsigned.
    Minu,
    /// The greater of them, both unsigned.
    Maxu,
}

/// How wide the number in memory is: the suffix of an instruction of the A extension.
#[derive(Clone, Copy, Debug, PartialEq, Eq)]
pub enum AtomicWidth {
    /// `.W`: 4 bytes.
    Word,
    /// `.D`: 8 bytes.
    Doubleword,
}

/// An instruction of the A extension, taken apart (manual, sections 8.2 and 8.4). Each is at the address in rs1.
#[derive(Clone, Copy, Debug, PartialEq, Eq)]
pub enum Atomic {
    /// An LR.
    LoadReserved {
        rd: Reg,
        rs1: Reg,
        width: AtomicWidth,
        ordering: AcquireRelease,
    },
    /// An SC of the register rs2.
    StoreConditional {
        rd: Reg,
        rs1: Reg,
        rs2: Reg,
        width: AtomicWidth,
        ordering: AcquireRelease,
    },
    /// An AMO with the register rs2.
    Operation {
        operation: AtomicOperation,
        rd: Reg,
        rs1: Reg,
        rs2: Reg,
        width: AtomicWidth,
        ordering: AcquireRelease,
    },
}

impl Instr {
    /// What it does as an instruction of the A extension, by kind, width and operands; `None` for every other instruction.
    #[inline]
    pub fn atomic(&self) -> Option<Atomic>
        ensures { result ≡ atomic_of self.now }
    {
        match *self {
            Instr::LrW { rd, rs1, ordering } => Some(Atomic::LoadReserved {
                rd,
                rs1,
                width: AtomicWidth::Word,
                ordering,
            }),
            Instr::LrD { rd, rs1, ordering } => Some(Atomic::LoadReserved {
                rd,
                rs1,
                width: AtomicWidth::Doubleword,
                ordering,
            }),
            Instr::ScW {
                rd,
                rs1,
                rs2,
                ordering,
            } => Some(Atomic::StoreConditional {
                rd,
                rs1,
                rs2,
                width: AtomicWidth::Word,
                ordering,
            }),
            Instr::ScD {
                rd,
                rs1,
                rs2,
                ordering,
            } => Some(Atomic::StoreConditional {
                rd,
                rs1,
                rs2,
                width: AtomicWidth::Doubleword,
                ordering,
            }),
            _ => operation(self),
        }
    }
}

/// The AMO that an instruction is: a row for each, with what it does and how wide.
macro_rules! operation_of {
    ($i:expr; $($name:ident: $operation:ident, $width:ident;)*) => {
        match $i {
            $(Instr::$name { rd, rs1, rs2, ordering } => Some(Atomic::Operation {
                operation: AtomicOperation::$operation,
                rd,
                rs1,
                rs2,
                width: AtomicWidth::$width,
                ordering,
            }),)*
            _ => None,
        }
    };
}

/// The AMO that an instruction is, if it is one.
fn operation(i: &Instr) -> Option<Atomic>
    ensures { result ≡ operation_of i.now }
{
    operation_of! {
        *i;
        AmoswapW: Swap, Word;
        AmoaddW: Add, Word;
        AmoxorW: Xor, Word;
        AmoandW: And, Word;
        AmoorW: Or, Word;
        AmominW: Min, Word;
        AmomaxW: Max, Word;
        AmominuW: Minu, Word;
        AmomaxuW: Maxu, Word;
        AmoswapD: Swap, Doubleword;
        AmoaddD: Add, Doubleword;
        AmoxorD: Xor, Doubleword;
        AmoandD: And, Doubleword;
        AmoorD: Or, Doubleword;
        AmominD: Min, Doubleword;
        AmomaxD: Max, Doubleword;
        AmominuD: Minu, Doubleword;
        AmomaxuD: Maxu, Doubleword;
    }
}
