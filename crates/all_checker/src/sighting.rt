//! What is to be known of a node, which hangs on the node alone: so several workers find it for nodes that are there.
ghost use Rattle.std.specs.Prelude.{◌≡◌, ◌+◌, ◌≤◌, ◌<◌, ◌^◌, length, slice_index_or, All as Each, IfOk, IfSome};
ghost use Rattle.own_moves.specs.Owned.{owns_of};
ghost use Rattle.ending_nodes.specs.Raising.{AreRight};
ghost use Rattle.ending_nodes.specs.declared.node.Node.{Node as KeptNode};
ghost use Rattle.all_checker.specs.Nodes.{AreSightsFrom, IsSightOf};

use crate::looking::{Look, NodeWalks, look_through, next_nodes};
use crate::memory::seen_at;
use ending_nodes::{MappedProgram, Node};
use many_makers::make_each;
use pages::{OutOfMemory, Range};
use run_places::Omission;
use std::alloc::Global;
use std::thread::Threads;

/// What is to be known of a node.
#[derive(Drop)]
pub struct NodeSight {
    /// What all harts may do from it on.
    pub walks: NodeWalks,
    /// The bytes of each range after its stores.
    pub seen: Vec<Vec<u8>>,
    /// The nodes to which the stores lead that may come next.
    pub next: Vec<Node>,
}

/// What is said of a node.
#[derive(Drop)]
pub enum Sight {
    /// All that is to be known.
    Whole(NodeSight),
    /// Nothing, for this reason.
    Unknown(Omission),
}

/// Nodes to look at, one after the other.
#[derive(Clone, Copy)]
pub(crate) struct Batch<'a> {
    /// All that are there.
    pub nodes: &'a [Node],
    /// The first of the batch.
    pub from: usize,
    /// How many it has.
    pub count: u32,
    /// By so many places at most the harts are walked from each.
    pub most: usize,
}

/// What is said of each node of a batch, found by so many workers at the same time: a slot for each. A slot may be empty behind one
/// of a node of which nothing can be said, and where a worker was refused memory.
///
/// # Errors
///
/// `OutOfMemory` alone.
pub(crate) fn sights_of<R: Threads + Sync>(
    rt: &R,
    alloc: Global,
    program: &MappedProgram<'_>,
    see: &[Range],
    batch: &Batch<'_>,
    workers: u32,
) -> Result<Vec<Option<Sight>>, OutOfMemory>
    requires few { length program.now.maps.now ≤ 64 }
    requires right { AreRight (owns_of program.now.owned.now) program.now.pages.now.memory
        program.now.maps.now }
    requires ranges { Each (λ r. r.start + r.len < 2 ^ 64) see.now }
    requires within { batch.now.from + batch.now.count ≤ length batch.now.nodes.now }
    ensures count { IfOk result (λ v. length v.items ≡ batch.now.count) }
    ensures sights { IfOk result (λ v. AreSightsFrom (owns_of program.now.owned.now)
        program.now.steps program.now.pages.now.memory (length program.now.maps.now) see.now
        batch.now.nodes.now batch.now.from v.items) }
{
    let make = |index: u32|
        requires { (length program.now.maps.now ≤ 64) ×
            AreRight (owns_of program.now.owned.now) program.now.pages.now.memory
            program.now.maps.now × Each (λ r. r.start + r.len < 2 ^ 64) see.now ×
            (batch.now.from + batch.now.count ≤ length batch.now.nodes.now) ×
            (index < batch.now.count) }
        ensures { IfSome result (λ x. (d : KeptNode) →
            IsSightOf (owns_of program.entry.now.owned.now) program.entry.now.steps
            program.entry.now.pages.now.memory (length program.entry.now.maps.now) see.entry.now
            (slice_index_or batch.entry.now.nodes.now (batch.entry.now.from + index) d) x) }
    { sight_at(alloc, program, see, batch, index) };
    let is_last = |sight: &Sight| matches!(sight, Sight::Unknown(_));
    make_each(rt, alloc, batch.count, workers, &make, &is_last)
}

/// What is said of the node at an index of a batch; none where that is refused memory.
fn sight_at(
    alloc: Global,
    program: &MappedProgram<'_>,
    see: &[Range],
    batch: &Batch<'_>,
    index: u32,
) -> Option<Sight>
    requires few { length program.now.maps.now ≤ 64 }
    requires right { AreRight (owns_of program.now.owned.now) program.now.pages.now.memory
        program.now.maps.now }
    requires ranges { Each (λ r. r.start + r.len < 2 ^ 64) see.now }
    requires within { batch.now.from + batch.now.count ≤ length batch.now.nodes.now }
    requires there { index < batch.now.count }
    ensures { IfSome result (λ x. (d : KeptNode) →
        IsSightOf (owns_of program.now.owned.now) program.now.steps program.now.pages.now.memory
        (length program.now.maps.now) see.now
        (slice_index_or batch.now.nodes.now (batch.now.from + index) d) x) }
{
    let node = &batch.nodes[batch.from + index as usize];
    sight_of(alloc, program, see, node, batch.most).ok()
}

/// What is said of a node.
///
/// # Errors
///
/// `OutOfMemory` alone.
fn sight_of(
    alloc: Global,
    program: &MappedProgram<'_>,
    see: &[Range],
    node: &Node,
    most: usize,
) -> Result<Sight, OutOfMemory>
    requires few { length program.now.maps.now ≤ 64 }
    requires right { AreRight (owns_of program.now.owned.now) program.now.pages.now.memory
        program.now.maps.now }
    requires ranges { Each (λ r. r.start + r.len < 2 ^ 64) see.now }
    ensures { IfOk result (IsSightOf (owns_of program.now.owned.now) program.now.steps
        program.now.pages.now.memory (length program.now.maps.now) see.now node.now) }
{
    match look_through(alloc, program, node, most)? {
        Look::Unknown(why) => Ok(Sight::Unknown(why)),
        Look::Whole(walks) => {
            let seen = seen_at(alloc, program.pages, see, node)?;
            let next = next_nodes(alloc, program, node, &walks.offered)?;
            Ok(Sight::Whole(NodeSight { walks, seen, next }))
        }
    }
}
