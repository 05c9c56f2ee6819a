//! Operations on a register and an immediate (manual, sections 2.4 and 5.2).
ghost use Rattle.std.specs.Prelude.{◌≡◌};
ghost use Rattle.std.specs.Int.Bits.{bit_and};
ghost use Rattle.rv64_decode.specs.Table.{instr_of};

use crate::instruction::Instr;
use crate::operands::{i_immediate, rd, rs1, shift_5, shift_6};

/// The operations on 64 bits.
#[inline]
pub(crate) fn immediate_operation(word: u32) -> Option<Instr>
    requires { bit_and word 0x0000007f ≡ 0x00000013 }
    ensures { result ≡ instr_of word }
{
    let rd = rd(word);
    let rs1 = rs1(word);
    let imm = i_immediate(word);
    match word & 0x0000707f {
        0x00000013 => Some(Instr::Addi { rd, rs1, imm }),
        0x00001013 => left_shift(word),
        0x00002013 => Some(Instr::Slti { rd, rs1, imm }),
        0x00003013 => Some(Instr::Sltiu { rd, rs1, imm }),
        0x00004013 => Some(Instr::Xori { rd, rs1, imm }),
        0x00005013 => right_shift(word),
        0x00006013 => Some(Instr::Ori { rd, rs1, imm }),
        0x00007013 => Some(Instr::Andi { rd, rs1, imm }),
        _ => None,
    }
}

/// SLLI.
#[inline]
fn left_shift(word: u32) -> Option<Instr>
    requires { bit_and word 0x0000707f ≡ 0x00001013 }
    ensures { result ≡ instr_of word }
{
    let rd = rd(word);
    let rs1 = rs1(word);
    let shift = shift_6(word);
    match word & 0xfc00707f {
        0x00001013 => Some(Instr::Slli { rd, rs1, shift }),
        _ => None,
    }
}

/// SRLI and SRAI.
#[inline]
fn right_shift(word: u32) -> Option<Instr>
    requires { bit_and word 0x0000707f ≡ 0x00005013 }
    ensures { result ≡ instr_of word }
{
    let rd = rd(word);
    let rs1 = rs1(word);
    let shift = shift_6(word);
    match word & 0xfc00707f {
        0x00005013 => Some(Instr::Srli { rd, rs1, shift }),
        0x40005013 => Some(Instr::Srai { rd, rs1, shift }),
        _ => None,
    }
}

/// The operations on words.
#[inline]
pub(crate) fn immediate_word_operation(word: u32) -> Option<Instr>
    requires { bit_and word 0x0000007f ≡ 0x0000001b }
    ensures { result ≡ instr_of word }
{
    let rd = rd(word);
    let rs1 = rs1(word);
    let imm = i_immediate(word);
    match word & 0x0000707f {
        0x0000001b => Some(Instr::Addiw { rd, rs1, imm }),
        0x0000101b => left_shift_word(word),
        0x0000501b => right_shift_word(word),
        _ => None,
    }
}

/// SLLIW.
#[inline]
fn left_shift_word(word: u32) -> Option<Instr>
    requires { bit_and word 0x0000707f ≡ 0x0000101b }
    ensures { result ≡ instr_of word }
{
    let rd = rd(word);
    let rs1 = rs1(word);
    let shift = shift_5(word);
    match word & 0xfe00707f {
        0x0000101b => Some(Instr::Slliw { rd, rs1, shift }),
        _ => None,
    }
}

/// SRLIW and SRAIW.
#[inline]
fn right_shift_word(word: u32) -> Option<Instr>
    requires { bit_and word 0x0000707f ≡ 0x0000501b }
    ensures { result ≡ instr_of word }
{
    let rd = rd(word);
    let rs1 = rs1(word);
    let shift = shift_5(word);
    match word & 0xfe00707f {
        0x0000501b => Some(Instr::Srliw { rd, rs1, shift }),
        0x4000501b => Some(Instr::Sraiw { rd, rs1, shift }),
        _ => None,
    }
}
