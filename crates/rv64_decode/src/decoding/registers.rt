//! Operations on two registers (manual, sections 2.4, 5.2, 7.1 and 7.2).
ghost use Rattle.std.specs.Prelude.{◌≡◌};
ghost use Rattle.std.specs.Int.Bits.{bit_and};
ghost use Rattle.rv64_decode.specs.Table.{instr_of};

use crate::instruction::Instr;
use crate::operands::{rd, rs1, rs2};

/// The operations on 64 bits.
#[inline]
pub(crate) fn register_operation(word: u32) -> Option<Instr>
    requires { bit_and word 0x0000007f ≡ 0x00000033 }
    ensures { result ≡ instr_of word }
{
    let rd = rd(word);
    let rs1 = rs1(word);
    let rs2 = rs2(word);
    match word & 0xfe00707f {
        0x00000033 => Some(Instr::Add { rd, rs1, rs2 }),
        0x00001033 => Some(Instr::Sll { rd, rs1, rs2 }),
        0x00002033 => Some(Instr::Slt { rd, rs1, rs2 }),
        0x00003033 => Some(Instr::Sltu { rd, rs1, rs2 }),
        0x00004033 => Some(Instr::Xor { rd, rs1, rs2 }),
        0x00005033 => Some(Instr::Srl { rd, rs1, rs2 }),
        0x00006033 => Some(Instr::Or { rd, rs1, rs2 }),
        0x00007033 => Some(Instr::And { rd, rs1, rs2 }),
        0x02000033 => Some(Instr::Mul { rd, rs1, rs2 }),
        0x02001033 => Some(Instr::Mulh { rd, rs1, rs2 }),
        0x02002033 => Some(Instr::Mulhsu { rd, rs1, rs2 }),
        0x02003033 => Some(Instr::Mulhu { rd, rs1, rs2 }),
        0x02004033 => Some(Instr::Div { rd, rs1, rs2 }),
        0x02005033 => Some(Instr::Divu { rd, rs1, rs2 }),
        0x02006033 => Some(Instr::Rem { rd, rs1, rs2 }),
        0x02007033 => Some(Instr::Remu { rd, rs1, rs2 }),
        0x40000033 => Some(Instr::Sub { rd, rs1, rs2 }),
        0x40005033 => Some(Instr::Sra { rd, rs1, rs2 }),
        _ => None,
    }
}

/// The operations on words.
#[inline]
pub(crate) fn register_word_operation(word: u32) -> Option<Instr>
    requires { bit_and word 0x0000007f ≡ 0x0000003b }
    ensures { result ≡ instr_of word }
{
    let rd = rd(word);
    let rs1 = rs1(word);
    let rs2 = rs2(word);
    match word & 0xfe00707f {
        0x0000003b => Some(Instr::Addw { rd, rs1, rs2 }),
        0x0000103b => Some(Instr::Sllw { rd, rs1, rs2 }),
        0x0000503b => Some(Instr::Srlw { rd, rs1, rs2 }),
        0x0200003b => Some(Instr::Mulw { rd, rs1, rs2 }),
        0x0200403b => Some(Instr::Divw { rd, rs1, rs2 }),
        0x0200503b => Some(Instr::Divuw { rd, rs1, rs2 }),
        0x0200603b => Some(Instr::Remw { rd, rs1, rs2 }),
        0x0200703b => Some(Instr::Remuw { rd, rs1, rs2 }),
        0x4000003b => Some(Instr::Subw { rd, rs1, rs2 }),
        0x4000503b => Some(Instr::Sraw { rd, rs1, rs2 }),
        _ => None,
    }
}
