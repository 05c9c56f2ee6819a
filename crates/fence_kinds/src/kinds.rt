ghost use Rattle.std.specs.Prelude.{◌≡◌, ◌++◌, [], ◌∷◌, IfOk};
ghost use Rattle.fence_kinds.specs.Kinds.{assumed_fence, kind_at, set_of};

use fence_table::{FenceKind, Side};
use pages::OutOfMemory;
use rv64_decode::FenceSet;
use std::alloc::Global;
use timed_machine::AssumedFence;

/// How many kinds of fences there are.
pub(crate) const KINDS: u32 = 9;

/// The kinds, by what they keep before them and behind them, in the order in which they are tried.
pub(crate) fn kind_at(index: u32) -> FenceKind
    ensures { result ≡ kind_at index }
{
    let (before, after) = match index {
        0 => (Side::Loads, Side::Loads),
        1 => (Side::Loads, Side::Stores),
        2 => (Side::Stores, Side::Loads),
        3 => (Side::Stores, Side::Stores),
        4 => (Side::Loads, Side::Both),
        5 => (Side::Both, Side::Stores),
        6 => (Side::Stores, Side::Both),
        7 => (Side::Both, Side::Loads),
        _ => (Side::Both, Side::Both),
    };
    FenceKind { before, after }
}

/// The loads and stores of a side.
fn set_of(side: Side) -> FenceSet
    ensures { result ≡ set_of side }
{
    match side {
        Side::Loads => FenceSet {
            reads: true,
            writes: false,
        },
        Side::Stores => FenceSet {
            reads: false,
            writes: true,
        },
        Side::Both => FenceSet {
            reads: true,
            writes: true,
        },
    }
}

/// These fences, and one of a kind before an instruction.
pub(crate) fn with_fence(
    alloc: Global,
    fences: &[AssumedFence],
    pc: u64,
    kind: FenceKind,
) -> Result<Vec<AssumedFence>, OutOfMemory>
    ensures { IfOk result (λ v. v.items ≡ fences.now ++ assumed_fence pc kind ∷ []) }
{
    let mut all = Vec::from_slice(alloc, fences)?;
    all.push(AssumedFence {
        pc,
        before: set_of(kind.before),
        after: set_of(kind.after),
    })?;
    Ok(all)
}
