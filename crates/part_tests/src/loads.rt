//! What many loads give.

use pages::{Fault, Pages, Width};
use store_buffer::StoreBuffer;

/// Whether each load of memory gives what stands beside it.
pub(crate) fn are_read(p: &Pages, rows: &[(u64, Width, Result<u64, Fault>)]) -> bool {
    for (address, width, number) in rows {
        if p.read(*address, *width) != *number {
            return false;
        }
    }
    true
}

/// Whether each load under the stores of a buffer gives what stands beside it.
pub(crate) fn are_read_over(
    buffer: &StoreBuffer,
    p: &Pages,
    rows: &[(u64, Width, Result<u64, Fault>)],
) -> bool {
    for (address, width, number) in rows {
        if buffer.read_over(p, *address, *width) != *number {
            return false;
        }
    }
    true
}
