use crate::ending::Ending;
use crate::node::{KeptNode, Node};
use hart_walks::{Guest, Walk};
use pages::{OutOfMemory, Range};
use run_states::Runs;
use std::alloc::Global;
use std::collections::{BTreeMap, HashMap};
use store_lists::{Omission, StoreList};

/// How far a search goes.
#[derive(Clone, Copy)]
pub struct Limits {
    /// So many nodes at most.
    pub nodes: u64,
    /// Whether the nodes are kept.
    pub keeps_nodes: bool,
}

/// A search for all endings of a guest.
#[derive(Drop)]
pub struct Search<'a> {
    pub(crate) alloc: Global,
    pub(crate) guest: &'a Guest,
    /// The ranges of memory that the endings show.
    pub(crate) see: &'a [Range],
    pub(crate) limits: Limits,
    pub(crate) walk: Walk,
    pub(crate) list: StoreList,
    /// The runs of the nodes that are gone through.
    pub(crate) runs: Vec<Runs>,
    /// These nodes, from the first on.
    pub(crate) nodes: Vec<Node>,
    /// What was left open in each node, and its number.
    pub(crate) met: HashMap<Vec<u64>, usize>,
    /// The endings, each by the numbers that say what it is.
    pub(crate) endings: BTreeMap<Vec<u64>, Ending>,
    /// The nodes that were gone through, where they are kept.
    pub(crate) kept: Vec<KeptNode>,
    pub(crate) counts: Counts,
    pub(crate) stage: Stage,
}

/// How far a search is.
#[derive(Clone, Copy, PartialEq, Eq)]
pub(crate) enum Stage {
    /// It is about to begin, also anew.
    Begins,
    /// It goes on.
    GoesOn,
    /// It went through all nodes.
    Whole,
    /// It came to the bound of nodes.
    OutOfNodes,
}

/// What was counted since the search last began.
#[derive(Clone, Copy)]
pub(crate) struct Counts {
    pub(crate) nodes: u64,
    pub(crate) merged: u64,
    pub(crate) deepest: u64,
    pub(crate) passes: u64,
    pub(crate) is_cut: bool,
}

impl<'a> Search<'a> {
    /// A search that hasn't begun. Its endings show some ranges of memory.
    ///
    /// # Errors
    ///
    /// `OutOfMemory` alone.
    pub fn new(
        alloc: Global,
        guest: &'a Guest,
        see: &'a [Range],
        limits: Limits,
    ) -> Result<Search<'a>, OutOfMemory> {
        let mut walk = Walk::new(alloc);
        for range in see {
            share_range(&mut walk, range)?;
        }
        Ok(Search {
            alloc,
            guest,
            see,
            limits,
            walk,
            list: StoreList::new(alloc),
            runs: Vec::new(alloc),
            nodes: Vec::new(alloc),
            met: HashMap::new(alloc),
            endings: BTreeMap::new(alloc),
            kept: Vec::new(alloc),
            counts: Counts {
                nodes: 0,
                merged: 0,
                deepest: 0,
                passes: 0,
                is_cut: false,
            },
            stage: Stage::Begins,
        })
    }

    /// Whether it goes no further.
    pub fn is_done(&self) -> bool {
        matches!(self.stage, Stage::Whole | Stage::OutOfNodes)
    }

    /// Whether it went through all nodes, without a bound that a run met, and without anything that it doesn't do.
    pub fn is_whole(&self) -> bool {
        self.stage == Stage::Whole && !self.counts.is_cut && self.omissions().is_empty()
    }

    /// Whether a run came to the bound of instructions.
    pub fn is_cut(&self) -> bool {
        self.counts.is_cut
    }

    /// Whether it came to the bound of nodes.
    pub fn is_out_of_nodes(&self) -> bool {
        self.stage == Stage::OutOfNodes
    }

    /// What it met that it doesn't do.
    pub fn omissions(&self) -> &[Omission] {
        self.walk.sharing.omissions()
    }

    /// The endings that were found so far, in a fixed order.
    pub fn endings(&self) -> &BTreeMap<Vec<u64>, Ending> {
        &self.endings
    }

    /// The nodes that were gone through, where they are kept.
    pub fn kept(&self) -> &[KeptNode] {
        self.kept.as_slice()
    }

    /// How many nodes it went to since it last began.
    pub fn count_nodes(&self) -> u64 {
        self.counts.nodes
    }

    /// How many of them were covered by others.
    pub fn count_merged(&self) -> u64 {
        self.counts.merged
    }

    /// How many times it began.
    pub fn count_passes(&self) -> u64 {
        self.counts.passes
    }

    /// The length of the longest list.
    pub fn deepest(&self) -> u64 {
        self.counts.deepest
    }

    /// How many instructions were followed.
    pub fn count_steps(&self) -> u64 {
        self.walk.steps
    }

    /// How many states of harts were compared.
    pub fn count_states(&self) -> u64 {
        self.walk.states
    }

    /// The doublewords that one hart alone was seen to touch, each with the hart, in a fixed order.
    ///
    /// # Errors
    ///
    /// `OutOfMemory` alone.
    pub fn touched_by_one(&self) -> Result<Vec<(u64, u8)>, OutOfMemory> {
        self.walk.sharing.touched_by_one(self.alloc)
    }

    /// The addresses of the fences that harts passed, each once.
    pub fn fences(&self) -> &[u64] {
        &self.walk.fences
    }

    /// How many doublewords are shared.
    pub fn count_shared(&self) -> u64 {
        self.walk.sharing.count_shared()
    }
}

/// Counts the doublewords of a range as shared.
fn share_range(walk: &mut Walk, range: &Range) -> Result<(), OutOfMemory> {
    if range.len == 0 {
        return Ok(());
    }
    let last = range.start.saturating_add(range.len - 1) / 8;
    for distance in 0..range.len / 8 + 2 {
        let doubleword = (range.start / 8).saturating_add(distance);
        if doubleword <= last {
            walk.sharing.share(doubleword)?;
        }
    }
    Ok(())
}
