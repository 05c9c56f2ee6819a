use rv64_decode::Reg;

/// A set of registers: those whose numbers may be read before they are written.
#[derive(Clone, Copy, PartialEq, Eq)]
pub struct LiveRegisters {
    /// Bit k stands for register k. Bit 0 is never set.
    bits: u32,
}

impl LiveRegisters {
    /// None.
    pub const NONE: LiveRegisters = LiveRegisters { bits: 0 };

    /// All but x0.
    pub const ALL: LiveRegisters = LiveRegisters { bits: 0xffff_fffe };

    /// Whether it has the register of a number.
    #[inline]
    pub fn has(self, number: usize) -> bool {
        number < 32 && self.bits >> (number as u32) & 1 == 1
    }

    /// With one more. x0 is left out.
    pub(crate) fn with(self, register: Reg) -> LiveRegisters {
        if register.index() == 0 {
            return self;
        }
        LiveRegisters {
            bits: self.bits | 1 << (register.index() as u32),
        }
    }

    /// Without one.
    pub(crate) fn without(self, register: Reg) -> LiveRegisters {
        LiveRegisters {
            bits: self.bits & (1u32 << (register.index() as u32) ^ u32::MAX),
        }
    }

    /// Those of both.
    pub(crate) fn or(self, other: LiveRegisters) -> LiveRegisters {
        LiveRegisters {
            bits: self.bits | other.bits,
        }
    }
}
