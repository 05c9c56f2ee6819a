//! Loads and stores of the base set (manual, sections 2.6 and 5.3).
ghost use Rattle.std.specs.Prelude.{◌≡◌};
ghost use Rattle.std.specs.Int.Bits.{bit_and};
ghost use Rattle.rv64_decode.specs.Table.{instr_of};

use crate::instruction::Instr;
use crate::operands::{i_immediate, rd, rs1, rs2, s_immediate};

/// The loads.
#[inline]
pub(crate) fn load(word: u32) -> Option<Instr>
    requires { bit_and word 0x0000007f ≡ 0x00000003 }
    ensures { result ≡ instr_of word }
{
    let rd = rd(word);
    let rs1 = rs1(word);
    let imm = i_immediate(word);
    match word & 0x0000707f {
        0x00000003 => Some(Instr::Lb { rd, rs1, imm }),
        0x00001003 => Some(Instr::Lh { rd, rs1, imm }),
        0x00002003 => Some(Instr::Lw { rd, rs1, imm }),
        0x00003003 => Some(Instr::Ld { rd, rs1, imm }),
        0x00004003 => Some(Instr::Lbu { rd, rs1, imm }),
        0x00005003 => Some(Instr::Lhu { rd, rs1, imm }),
        0x00006003 => Some(Instr::Lwu { rd, rs1, imm }),
        _ => None,
    }
}

/// The stores.
#[inline]
pub(crate) fn store(word: u32) -> Option<Instr>
    requires { bit_and word 0x0000007f ≡ 0x00000023 }
    ensures { result ≡ instr_of word }
{
    let rs1 = rs1(word);
    let rs2 = rs2(word);
    let imm = s_immediate(word);
    match word & 0x0000707f {
        0x00000023 => Some(Instr::Sb { rs1, rs2, imm }),
        0x00001023 => Some(Instr::Sh { rs1, rs2, imm }),
        0x00002023 => Some(Instr::Sw { rs1, rs2, imm }),
        0x00003023 => Some(Instr::Sd { rs1, rs2, imm }),
        _ => None,
    }
}
