ghost use Rattle.std.specs.Prelude.{◌≡◌, true, IfOk, OnOk};
ghost use Rattle.hart_step.specs.DecodedCode.{Shows};

use hart_step::DecodedCode;
use moments::decoded;
use pages::{OutOfMemory, Pages, Range};

/// The decoded words of a run's code, so many at most, by the memory of a machine of that run.
///
/// # Errors
///
/// `OutOfMemory`: memory is refused, or has other code. A run keeps its code.
pub fn code_of_run(pages: &Pages, code: &[Range], most: u64) -> Result<DecodedCode, OutOfMemory>
    ensures shows { IfOk result (λ t. Shows pages.now.memory t.first t.instructions) }
    ensures same { OnOk result (pages.now.memory.code ≡ code.now) }
{
    if !are_same_ranges(pages.code(), code) {
        return Err(OutOfMemory);
    }
    decoded(pages, most)
}

/// Whether these are the same ranges.
fn are_same_ranges(ranges: &[Range], others: &[Range]) -> bool
    ensures { result ≡ true → ranges.now ≡ others.now }
{
    match (ranges, others) {
        ([], []) => true,
        ([range, rest @ ..], [other, more @ ..]) => {
            range.start == other.start && range.len == other.len && are_same_ranges(rest, more)
        }
        _ => false,
    }
}
