ghost use Rattle.std.specs.Prelude.{◌≡◌, IfOk, map};
ghost use Rattle.view_commands.specs.Views.{range_of};

use command_line::Bytes;
use pages::Range;
use std::alloc::{AllocError, Global};

/// Bytes that a line names, as ranges whose accesses are looked at.
///
/// # Errors
///
/// The allocator's alone.
pub fn access_ranges(alloc: Global, named: &[Bytes]) -> Result<Vec<Range>, AllocError>
    ensures { IfOk result (λ v. v.items ≡ map range_of named.now) }
{
    let mut ranges = Vec::new(alloc);
    for bytes in named {
        ranges.push(range_of(bytes))?;
    }
    Ok(ranges)
}

fn range_of(bytes: &Bytes) -> Range
    ensures { result ≡ range_of bytes.now }
{
    Range {
        start: bytes.address,
        len: bytes.length,
    }
}
