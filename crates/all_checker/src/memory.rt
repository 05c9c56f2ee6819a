//! Memory after a list of stores.
ghost use Rattle.std.specs.Prelude.{◌≡◌, ◌+◌, ◌<◌, ◌^◌, map, All, IfOk};
ghost use Rattle.pages.specs.declared.access.Range.{Range as Seen};
ghost use Rattle.all_endings.specs.Endings.{bytes_from};
ghost use Rattle.all_endings.specs.Tables.{memory_of};
ghost use Rattle.hart_ends.specs.Told.{bytes_told};
ghost use Rattle.hart_states.specs.Opening.{opening_of};
ghost use Rattle.hart_states.specs.States.{listed};
ghost use Rattle.list_suffixes.specs.NodeWalks.{seen_from};
ghost use Rattle.ending_nodes.specs.KeptNodes.{node_told};

use ending_nodes::Node;
use hart_states::{ListedStore, OpeningMemory};
use pages::{OutOfMemory, Pages, Range};
use std::alloc::Global;

/// The bytes of ranges after a node's stores.
///
/// # Errors
///
/// `OutOfMemory` alone.
pub(crate) fn seen_at(
    alloc: Global,
    pages: &Pages,
    see: &[Range],
    node: &Node,
) -> Result<Vec<Vec<u8>>, OutOfMemory>
    requires { All (λ r. r.start + r.len < 2 ^ 64) see.now }
    ensures { IfOk result (λ v.
        bytes_told v.items ≡ seen_from see.now (node_told pages.now.memory node.now)) }
{
    let opening = OpeningMemory {
        pages,
        behind: &node.behind,
    };
    let seen = seen_bytes(alloc, &opening, see, &node.list)?;
    Ok(seen)
}

/// The bytes of ranges after a list of stores.
fn seen_bytes(
    alloc: Global,
    opening: &OpeningMemory<'_>,
    see: &[Range],
    list: &[ListedStore],
) -> Result<Vec<Vec<u8>>, OutOfMemory>
    requires { All (λ r. r.start + r.len < 2 ^ 64) see.now }
    ensures { IfOk result (λ v. bytes_told v.items ≡ map (λ (r : Seen).
        bytes_from (memory_of (listed list.now) (opening_of opening.now)) r.start r.len) see.now) }
{
    let mut seen = Vec::new(alloc);
    for range in see {
        let bytes = bytes_of(alloc, opening, *range, list)?;
        seen.push(bytes)?;
    }
    Ok(seen)
}

/// The bytes of a range after a list of stores.
fn bytes_of(
    alloc: Global,
    opening: &OpeningMemory<'_>,
    range: Range,
    list: &[ListedStore],
) -> Result<Vec<u8>, OutOfMemory>
    requires { range.start + range.len < 2 ^ 64 }
    ensures { IfOk result (λ v. v.items ≡
        bytes_from (memory_of (listed list.now) (opening_of opening.now)) range.start range.len) }
{
    let mut bytes = Vec::new(alloc);
    for distance in 0..range.len {
        bytes.push(opening.byte_after(list, range.start + distance))?;
    }
    Ok(bytes)
}
