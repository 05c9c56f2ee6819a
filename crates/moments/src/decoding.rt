ghost use Rattle.std.specs.Prelude.{IfOk};
ghost use Rattle.hart_step.specs.DecodedCode.{Shows};

use hart_step::{DecodedCode, decode_range};
use pages::{OutOfMemory, Pages};

/// The decoded words of the first range of code, so many at most.
///
/// # Errors
///
/// `OutOfMemory` alone.
pub fn decoded(pages: &Pages, most: u64) -> Result<DecodedCode, OutOfMemory>
    ensures { IfOk result (λ t. Shows pages.now.memory t.first t.instructions) }
{
    match pages.code() {
        [] => DecodedCode::new(pages.allocator(), pages, 0, 0),
        [range, ..] => decode_range(pages.allocator(), pages, *range, most),
    }
}
