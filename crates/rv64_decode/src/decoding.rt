mod atomics;
mod fences;
mod immediates;
mod jumps;
mod memory;
mod registers;
mod system;

ghost use Rattle.std.specs.Prelude.{◌≡◌};
ghost use Rattle.rv64_decode.specs.Table.{instr_of};

use crate::instruction::Instr;
use crate::operands::{j_immediate, rd, u_immediate};

/// The instruction that a word encodes, or `None` where it encodes none of RV64IMA (manual, chapter 24).
#[inline]
pub fn decode(word: u32) -> Option<Instr>
    ensures { result ≡ instr_of word }
{
    match word & 0x7f {
        0x03 => memory::load(word),
        0x0f => fences::fence(word),
        0x13 => immediates::immediate_operation(word),
        0x17 => Some(Instr::Auipc {
            rd: rd(word),
            imm: u_immediate(word),
        }),
        0x1b => immediates::immediate_word_operation(word),
        0x23 => memory::store(word),
        0x2f => atomics::atomic(word),
        0x33 => registers::register_operation(word),
        0x37 => Some(Instr::Lui {
            rd: rd(word),
            imm: u_immediate(word),
        }),
        0x3b => registers::register_word_operation(word),
        0x63 => jumps::branch(word),
        0x67 => jumps::jump_register(word),
        0x6f => Some(Instr::Jal {
            rd: rd(word),
            imm: j_immediate(word),
        }),
        0x73 => system::system(word),
        _ => None,
    }
}
