//! JALR and the branches (manual, section 2.5).
ghost use Rattle.std.specs.Prelude.{◌≡◌};
ghost use Rattle.std.specs.Int.Bits.{bit_and};
ghost use Rattle.rv64_decode.specs.Table.{instr_of};

use crate::instruction::Instr;
use crate::operands::{b_immediate, i_immediate, rd, rs1, rs2};

/// JALR.
#[inline]
pub(crate) fn jump_register(word: u32) -> Option<Instr>
    requires { bit_and word 0x0000007f ≡ 0x00000067 }
    ensures { result ≡ instr_of word }
{
    let rd = rd(word);
    let rs1 = rs1(word);
    let imm = i_immediate(word);
    match word & 0x0000707f {
        0x00000067 => Some(Instr::Jalr { rd, rs1, imm }),
        _ => None,
    }
}

/// The conditional branches.
#[inline]
pub(crate) fn branch(word: u32) -> Option<Instr>
    requires { bit_and word 0x0000007f ≡ 0x00000063 }
    ensures { result ≡ instr_of word }
{
    let rs1 = rs1(word);
    let rs2 = rs2(word);
    let imm = b_immediate(word);
    match word & 0x0000707f {
        0x00000063 => Some(Instr::Beq { rs1, rs2, imm }),
        0x00001063 => Some(Instr::Bne { rs1, rs2, imm }),
        0x00004063 => Some(Instr::Blt { rs1, rs2, imm }),
        0x00005063 => Some(Instr::Bge { rs1, rs2, imm }),
        0x00006063 => Some(Instr::Bltu { rs1, rs2, imm }),
        0x00007063 => Some(Instr::Bgeu { rs1, rs2, imm }),
        _ => None,
    }
}
