//! The A extension (manual, chapter 8).
ghost use Rattle.std.specs.Prelude.{◌≡◌};
ghost use Rattle.std.specs.Int.Bits.{bit_and};
ghost use Rattle.rv64_decode.specs.Table.{instr_of};

use crate::instruction::Instr;
use crate::operands::{ordering, rd, rs1, rs2};

/// SC, the AMOs and, by a finer mask, LR.
#[inline]
pub(crate) fn atomic(word: u32) -> Option<Instr>
    requires { bit_and word 0x0000007f ≡ 0x0000002f }
    ensures { result ≡ instr_of word }
{
    let rd = rd(word);
    let rs1 = rs1(word);
    let rs2 = rs2(word);
    let ordering = ordering(word);
    match word & 0xf800707f {
        0x0000202f => Some(Instr::AmoaddW {
            rd,
            rs1,
            rs2,
            ordering,
        }),
        0x0000302f => Some(Instr::AmoaddD {
            rd,
            rs1,
            rs2,
            ordering,
        }),
        0x0800202f => Some(Instr::AmoswapW {
            rd,
            rs1,
            rs2,
            ordering,
        }),
        0x0800302f => Some(Instr::AmoswapD {
            rd,
            rs1,
            rs2,
            ordering,
        }),
        0x1000202f => load_reserved_word(word),
        0x1000302f => load_reserved_doubleword(word),
        0x1800202f => Some(Instr::ScW {
            rd,
            rs1,
            rs2,
            ordering,
        }),
        0x1800302f => Some(Instr::ScD {
            rd,
            rs1,
            rs2,
            ordering,
        }),
        0x2000202f => Some(Instr::AmoxorW {
            rd,
            rs1,
            rs2,
            ordering,
        }),
        0x2000302f => Some(Instr::AmoxorD {
            rd,
            rs1,
            rs2,
            ordering,
        }),
        0x4000202f => Some(Instr::AmoorW {
            rd,
            rs1,
            rs2,
            ordering,
        }),
        0x4000302f => Some(Instr::AmoorD {
            rd,
            rs1,
            rs2,
            ordering,
        }),
        0x6000202f => Some(Instr::AmoandW {
            rd,
            rs1,
            rs2,
            ordering,
        }),
        0x6000302f => Some(Instr::AmoandD {
            rd,
            rs1,
            rs2,
            ordering,
        }),
        0x8000202f => Some(Instr::AmominW {
            rd,
            rs1,
            rs2,
            ordering,
        }),
        0x8000302f => Some(Instr::AmominD {
            rd,
            rs1,
            rs2,
            ordering,
        }),
        0xa000202f => Some(Instr::AmomaxW {
            rd,
            rs1,
            rs2,
            ordering,
        }),
        0xa000302f => Some(Instr::AmomaxD {
            rd,
            rs1,
            rs2,
            ordering,
        }),
        0xc000202f => Some(Instr::AmominuW {
            rd,
            rs1,
            rs2,
            ordering,
        }),
        0xc000302f => Some(Instr::AmominuD {
            rd,
            rs1,
            rs2,
            ordering,
        }),
        0xe000202f => Some(Instr::AmomaxuW {
            rd,
            rs1,
            rs2,
            ordering,
        }),
        0xe000302f => Some(Instr::AmomaxuD {
            rd,
            rs1,
            rs2,
            ordering,
        }),
        _ => None,
    }
}

/// LR.W, whose rs2 field is 0.
#[inline]
fn load_reserved_word(word: u32) -> Option<Instr>
    requires { bit_and word 0xf800707f ≡ 0x1000202f }
    ensures { result ≡ instr_of word }
{
    let rd = rd(word);
    let rs1 = rs1(word);
    let ordering = ordering(word);
    match word & 0xf9f0707f {
        0x1000202f => Some(Instr::LrW { rd, rs1, ordering }),
        _ => None,
    }
}

/// LR.D, whose rs2 field is 0.
#[inline]
fn load_reserved_doubleword(word: u32) -> Option<Instr>
    requires { bit_and word 0xf800707f ≡ 0x1000302f }
    ensures { result ≡ instr_of word }
{
    let rd = rd(word);
    let rs1 = rs1(word);
    let ordering = ordering(word);
    match word & 0xf9f0707f {
        0x1000302f => Some(Instr::LrD { rd, rs1, ordering }),
        _ => None,
    }
}
