//! Doublewords of memory that one hart alone touches.
ghost use Rattle.std.specs.Prelude.{◌≡◌, ◌/◌};
ghost use Rattle.own_moves.specs.Owned.{owns_of};
ghost use Rattle.private_bytes.specs.Owners.{is_own};

/// An aligned doubleword of memory that one hart alone touches.
#[derive(Clone, Copy, PartialEq, Eq)]
pub struct OwnDoubleword {
    /// Its address, divided by 8.
    pub number: u64,
    /// The hart.
    pub hart: u8,
}

/// Whether the byte at an address is a hart's own.
pub fn is_own(owned: &[OwnDoubleword], hart: u8, address: u64) -> bool
    ensures { result ≡ is_own (owns_of owned.now) hart address }
{
    owns(owned, hart, address / 8)
}

/// Whether a doubleword is a hart's own.
fn owns(owned: &[OwnDoubleword], hart: u8, number: u64) -> bool
    ensures { result ≡ owns_of owned.now hart number }
{
    for own in owned {
        if own.hart == hart && own.number == number {
            return true;
        }
    }
    false
}
