ghost use Rattle.std.specs.Prelude.{◌≡◌};
ghost use Rattle.rv64_decode.specs.Serial.{is_serial_of};

use crate::instruction::Instr;
use crate::ordering::FenceMode;

/// Whether an instruction is one of the serial phase: ECALL, LR, SC, an AMO, or a fence that orders
/// stores before loads (FENCE.TSO does not; manual, section 2.7).
#[inline(always)]
pub fn is_serial(i: &Instr) -> bool
    ensures { result ≡ is_serial_of i.now }
{
    match i {
        Instr::Ecall => true,
        Instr::Fence {
            before,
            after,
            mode,
        } => before.writes && after.reads && *mode == FenceMode::Normal,
        _ => i.atomic().is_some(),
    }
}
