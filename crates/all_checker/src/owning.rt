//! Which bytes one hart alone touches.
ghost use Rattle.std.specs.Prelude.{◌≡◌, ◌≢◌, ◌+◌, ◌/◌, ◌<◌, ◌^◌, ℕ, All, IfOk, IsTrue, false, true};
ghost use Rattle.pages.specs.Memory.{in_range};
ghost use Rattle.own_moves.specs.Owned.{owns_of};
ghost use Rattle.private_bytes.specs.PrivateWalks.{AreNobodys};
ghost use Rattle.all_checker.specs.Owning.{IsUnseen};

use pages::{OutOfMemory, Range};
use run_places::OwnDoubleword;
use std::alloc::Global;

/// Those doublewords of which no byte is in some ranges.
///
/// # Errors
///
/// `OutOfMemory` alone.
pub(crate) fn unseen(
    alloc: Global,
    hint: &[OwnDoubleword],
    see: &[Range],
) -> Result<Vec<OwnDoubleword>, OutOfMemory>
    requires { All (λ r. r.start + r.len < 2 ^ 64) see.now }
    ensures { IfOk result (λ v. (harts : ℕ) → AreNobodys (owns_of v.items) harts see.now) }
{
    let mut owned = Vec::new(alloc);
    for own in hint {
        if is_unseen(own, see) {
            owned.push(*own)?;
        }
    }
    Ok(owned)
}

/// Whether no byte of a doubleword is in some ranges.
fn is_unseen(own: &OwnDoubleword, see: &[Range]) -> bool
    requires { All (λ r. r.start + r.len < 2 ^ 64) see.now }
    ensures { IsTrue result → IsUnseen own.now.number see.now }
{
    for range in see {
        if shows(range, own.number) {
            return false;
        }
    }
    true
}

/// Whether a range has a byte of a doubleword.
fn shows(range: &Range, number: u64) -> bool
    requires { range.now.start + range.now.len < 2 ^ 64 }
    ensures { result ≡ false → (x : ℕ) →
        in_range range.now.start range.now.len x ≡ true → x / 8 ≢ number }
{
    range.len > 0 && range.start / 8 <= number && number <= (range.start + (range.len - 1)) / 8
}

/// The doublewords but one, whoever's it is.
///
/// # Errors
///
/// `OutOfMemory` alone.
pub(crate) fn without(
    alloc: Global,
    owned: &[OwnDoubleword],
    number: u64,
) -> Result<Vec<OwnDoubleword>, OutOfMemory> {
    let mut others = Vec::new(alloc);
    for own in owned {
        if own.number != number {
            others.push(*own)?;
        }
    }
    Ok(others)
}
