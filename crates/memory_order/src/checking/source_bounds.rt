ghost use Rattle.std.specs.Prelude.{◌≡◌, ◌≢◌, ◌+◌, ◌^◌, ◌<◌, ℕ, length, max, true};
ghost use Rattle.round_schedule.specs.Accesses.{address_of, bytes_of, loads, reads};
ghost use Rattle.memory_order.specs.Checking.{bound, row_of, source_at};

use crate::checking::bounds::{Bounds, bounds_at, raised_to};
use round_schedule::Access;

/// For the operation at each position of an order, a bound for each of its bytes: that of byte `x` at `x % 8`.
///
/// An access has at most eight bytes, so each has a place of its own.
pub type Sources = Vec<[usize; 8]>;

/// The bound for byte `x` of the operation at a position.
pub fn source_at(sources: &Sources, position: usize, x: u64) -> usize
    requires { position < length sources.now.items }
    ensures { result ≡ source_at sources.now.items position x }
{
    let row = sources[position];
    row[(x % 8) as usize]
}

/// Raises the bound of each byte that the load at a position reads to what `from` has at `owner`.
pub(crate) fn note_load(
    sources: &mut Sources,
    position: usize,
    access: &Access,
    from: &Bounds,
    owner: u64,
)
    requires fits { address_of access.now + bytes_of access.now < 2 ^ 64 }
    requires within { loads access.now ≡ true → position < length sources.old.items }
    ensures len { length sources.new.items ≡ length sources.old.items }
    ensures others { (p : ℕ) → (loads access.now ≡ true → p ≢ position) →
        row_of sources.new.items p ≡ row_of sources.old.items p }
    ensures raised { (x : ℕ) → reads access.now x ≡ true → source_at sources.new.items position x ≡
        max (source_at sources.old.items position x) (bound from.now owner x) }
{
    if access.loads() {
        let found = bounds_at(from, owner, access.address(), access.byte_count());
        sources[position] = raised_to(sources[position], 0, 8, found);
    }
}
