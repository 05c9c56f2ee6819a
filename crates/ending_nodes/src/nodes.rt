//! Nodes, each beside those of the same memory and stores.
ghost use Rattle.std.specs.Prelude.{◌≡◌, [], IsTrue, OnOk};
ghost use Rattle.ending_nodes.specs.KeptNodes.{Grow, HaveOneFor};

use crate::marking::mark_of;
use crate::node::Node;
use crate::standing::node_stands_for;
use list_suffixes::standing_nodes_serve;
use pages::OutOfMemory;
use std::alloc::Global;
use std::collections::HashMap;

/// Nodes: of those that were come to, each for which none stands that was come to before.
#[derive(Drop)]
pub struct Nodes {
    /// In the order in which they were come to.
    pub all: Vec<Node>,
    /// Of each mark the latest of the nodes that have it, and of each node the one before it with the same mark. No more hangs on them than
    /// which nodes are looked at.
    latest: HashMap<u64, usize>,
    before: Vec<Option<usize>>,
}

impl Nodes {
    /// None so far.
    pub fn new(alloc: Global) -> Nodes
        ensures { result.all.items ≡ [] }
    {
        Nodes {
            all: Vec::new(alloc),
            latest: HashMap::new(alloc),
            before: Vec::new(alloc),
        }
    }

    /// Adds a node, unless one that is there stands for it.
    ///
    /// # Errors
    ///
    /// `OutOfMemory` alone.
    pub fn add(&mut self, node: Node) -> Result<(), OutOfMemory>
        ensures grow { OnOk result (Grow self.old.all.items self.new.all.items) }
        ensures have { OnOk result (HaveOneFor self.new.all.items node) }
    {
        let mark = mark_of(&node);
        if self.have_for(&node, mark) {
            return Ok(());
        }
        let index = self.all.len();
        let before = self.latest.insert(mark, index)?;
        self.before.push(before)?;
        self.all.push(node)?;
        Ok(())
    }

    /// Whether one that is there, with the same mark, stands for a node.
    fn have_for(&self, node: &Node, mark: u64) -> bool
        ensures { IsTrue result → HaveOneFor self.now.all.items node.now }
    {
        let mut at = self.latest.get(&mark).copied();
        for _ in 0..self.all.len() {
            let index = match at {
                Some(index) => index,
                None => return false,
            };
            if has_at(&self.all, index, node) {
                return true;
            }
            at = match self.before.get(index) {
                Some(before) => *before,
                None => None,
            };
        }
        false
    }
}

/// Whether a node that is there stands for another one.
fn has_at(all: &[Node], index: usize, node: &Node) -> bool
    ensures { IsTrue result → HaveOneFor all.now node.now }
{
    standing_nodes_serve();
    if index >= all.len() {
        return false;
    }
    node_stands_for(&all[index], node)
}
