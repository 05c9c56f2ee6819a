//! Fences (manual, section 2.7).
ghost use Rattle.std.specs.Prelude.{◌≡◌};
ghost use Rattle.std.specs.Int.Bits.{bit_and};
ghost use Rattle.rv64_decode.specs.Table.{instr_of};

use crate::instruction::Instr;
use crate::operands::{fence_after, fence_before, fence_mode};

/// FENCE, FENCE.TSO among its settings. The fields rd and rs1 are reserved, and not looked at.
#[inline]
pub(crate) fn fence(word: u32) -> Option<Instr>
    requires { bit_and word 0x0000007f ≡ 0x0000000f }
    ensures { result ≡ instr_of word }
{
    let before = fence_before(word);
    let after = fence_after(word);
    let mode = fence_mode(word);
    match word & 0x0000707f {
        0x0000000f => Some(Instr::Fence {
            before,
            after,
            mode,
        }),
        _ => None,
    }
}
