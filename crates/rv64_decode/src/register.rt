ghost use Rattle.std.specs.Prelude.{◌≡◌, ◌<◌, ℕ};

use std::marker::Model;

/// The number of an integer register, 0 to 31 (manual, section 2.1).
#[derive(Clone, Copy, Debug, PartialEq, Eq)]
pub struct Reg {
    number: u8,
}

impl Model for Reg {
    ghost Value = { ℕ };

    ghost view = { λ r. r.number };

    ghost invariant = { λ r. r.number < 32 };

    ghost inverse = { λ n. record { number = n } };
}

impl Reg {
    /// The register of a number below 32.
    #[inline(always)]
    pub fn new(number: u8) -> Reg
        requires { number < 32 }
        ensures { result ≡ number }
    {
        Reg { number }
    }

    /// The number, as an index into 32 registers.
    #[inline(always)]
    pub fn index(self) -> usize
        ensures value { result ≡ self }
        ensures below { result < 32 }
    {
        self.number as usize
    }
}
