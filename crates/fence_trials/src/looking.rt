use hunt_table::SeenRange;
use pages::{OutOfMemory, Pages, Width};
use std::alloc::Global;

/// The bytes of the ranges in guest memory, one range after the other.
pub fn seen_of(alloc: Global, pages: &Pages, ranges: &[SeenRange]) -> Result<Vec<u8>, OutOfMemory> {
    let mut seen = Vec::new(alloc);
    for range in ranges {
        for offset in 0..range.length {
            let address = u64::from(range.address) + u64::from(offset);
            if let Ok(byte) = pages.read(address, Width::W1) {
                seen.push((byte & 0xff) as u8)?;
            }
        }
    }
    Ok(seen)
}
