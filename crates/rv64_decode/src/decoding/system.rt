//! ECALL and EBREAK (manual, section 2.8).
ghost use Rattle.std.specs.Prelude.{◌≡◌};
ghost use Rattle.std.specs.Int.Bits.{bit_and};
ghost use Rattle.rv64_decode.specs.Table.{instr_of};

use crate::instruction::Instr;

/// The two words of this opcode.
#[inline]
pub(crate) fn system(word: u32) -> Option<Instr>
    requires { bit_and word 0x0000007f ≡ 0x00000073 }
    ensures { result ≡ instr_of word }
{
    match word {
        0x00000073 => Some(Instr::Ecall),
        0x00100073 => Some(Instr::Ebreak),
        _ => None,
    }
}
