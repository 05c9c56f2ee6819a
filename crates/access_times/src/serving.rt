//! Single instructions on what the harts share.
ghost use Rattle.std.specs.Prelude.{◌≡◌, ◌<◌, ℕ, List, length, None};
ghost use Rattle.hart_step.specs.DecodedCode.{Shows};
ghost use Rattle.rv64_decode.specs.declared.instruction.Instr.{Instr};

use hart_step::{Bus, Hart};
use pages::{OutOfMemory, Pages, Store};
use round_schedule::Stepped;
use serial_phase::{SharedState, serve};

/// A hart does its next instruction, whatever it is.
#[inline]
pub(crate) fn serve_next(
    h: &mut Hart,
    shared: &mut SharedState,
    hart: u8,
    round: u32,
) -> Result<Stepped, OutOfMemory>
    requires running { h.old.stop ≡ None }
    requires hart { hart < length shared.old.reservations }
    ensures reservations { length shared.new.reservations ≡ length shared.old.reservations }
{
    let alloc = shared.pages.allocator();
    shared.pages.prepare(alloc, &[], 1)?;
    shared.console.reserve(1)?;
    Ok(serve(h, shared, u32::from(hart), round))
}

/// Writes a number to memory, where it may be stored.
pub(crate) fn lay(pages: &mut Pages, number: Store) -> Result<(), OutOfMemory>
    ensures { (first : ℕ) (words : List Instr) →
        Shows pages.old.memory first words → Shows pages.new.memory first words }
{
    let _fault = Bus::store(pages, number)?;
    Ok(())
}
