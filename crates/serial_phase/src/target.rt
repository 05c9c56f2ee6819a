ghost use Rattle.std.specs.Prelude.{◌≡◌};
ghost use Rattle.serial_phase.specs.Atomics.{target_of, width_of};

use hart_step::Hart;
use pages::Width;
use rv64_decode::{AcquireRelease, AtomicWidth, Reg};

/// The number in memory that an instruction of the A extension is about, and the register that gets
/// its answer.
#[derive(Clone, Copy)]
pub(crate) struct Target {
    /// The register that gets the answer.
    pub rd: Reg,
    /// The address of the number: what rs1 holds.
    pub address: u64,
    /// How wide the number is.
    pub width: AtomicWidth,
    /// What the access is ordered with (manual, section 8.1).
    pub ordering: AcquireRelease,
}

/// The number at the address in rs1.
pub(crate) fn target_of(
    h: &Hart,
    rd: Reg,
    rs1: Reg,
    width: AtomicWidth,
    ordering: AcquireRelease,
) -> Target
    ensures { result ≡ target_of h.now rd rs1 width ordering }
{
    Target {
        rd,
        address: h.reg(rs1),
        width,
        ordering,
    }
}

/// The width of the access to a word, 4 bytes, or to a doubleword, 8 bytes.
pub(crate) fn width_of(width: AtomicWidth) -> Width
    ensures { result ≡ width_of width }
{
    match width {
        AtomicWidth::Word => Width::W4,
        AtomicWidth::Doubleword => Width::W8,
    }
}
