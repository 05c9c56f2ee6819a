//! The way through the nodes.
use crate::node::{KeptNode, Node, children_of};
use crate::search::{Counts, Search, Stage};
use hart_runs::runs_against;
use hart_walks::{Against, Kept};
use pages::OutOfMemory;
use run_states::{Opened, Runs, key_of};
use store_lists::{ListedStore, StoreList};

impl<'a> Search<'a> {
    /// Goes on until it is done, or has followed so many instructions more. Answers whether it is done.
    ///
    /// # Errors
    ///
    /// `OutOfMemory` alone.
    pub fn advance(&mut self, most: u64) -> Result<bool, OutOfMemory> {
        let until = self.walk.steps.saturating_add(most);
        for _ in 0..u64::MAX {
            if self.is_done() || self.walk.steps >= until {
                break;
            }
            self.go_on()?;
        }
        Ok(self.is_done())
    }

    /// Goes to the next node, or back.
    fn go_on(&mut self) -> Result<(), OutOfMemory> {
        if self.walk.sharing.take_growth() {
            self.stage = Stage::Begins;
        }
        if self.stage == Stage::Begins {
            self.begin();
            return self.enter();
        }
        if self.counts.nodes >= self.limits.nodes {
            self.stage = Stage::OutOfNodes;
            return Ok(());
        }
        match self.next_child() {
            Some(child) => {
                self.list.push(child)?;
                self.enter()
            }
            None => {
                self.leave();
                Ok(())
            }
        }
    }

    /// Begins anew, by what is known of the sharing.
    fn begin(&mut self) {
        self.list = StoreList::new(self.alloc);
        self.runs.clear();
        self.nodes.clear();
        self.met.clear();
        self.endings.clear();
        self.kept.clear();
        self.walk.forget(Kept::NOTHING);
        self.counts = Counts {
            nodes: 0,
            merged: 0,
            deepest: 0,
            passes: self.counts.passes.saturating_add(1),
            is_cut: false,
        };
        self.stage = Stage::GoesOn;
    }

    /// The next store that may come behind the list of the node that is gone through.
    fn next_child(&mut self) -> Option<ListedStore> {
        let node = self.nodes.last_mut()?;
        let child = node.children.get(node.gone).copied()?;
        node.gone = node.gone.saturating_add(1);
        Some(child)
    }

    /// Goes back from the node that is gone through.
    fn leave(&mut self) {
        let Some(node) = self.nodes.pop() else {
            self.stage = Stage::Whole;
            return;
        };
        self.forget(node.runs_before, node.kept_before);
        self.list.pop();
        if self.nodes.is_empty() {
            self.stage = Stage::Whole;
        }
    }

    /// Forgets what was kept since.
    fn forget(&mut self, runs: usize, kept: Kept) {
        self.runs.truncate(runs);
        self.walk.forget(kept);
    }

    /// Goes to the node of the list.
    fn enter(&mut self) -> Result<(), OutOfMemory> {
        let (runs_before, kept_before) = (self.runs.len(), self.walk.kept());
        self.counts.nodes = self.counts.nodes.saturating_add(1);
        self.counts.deepest = self.counts.deepest.max(u64::from(self.list.now()));
        let runs = self.run_all()?;
        if self.walk.sharing.grew() {
            return Ok(());
        }
        let key = self.key(&runs)?;
        if let Some(number) = self.met.get(&key) {
            let covering = *number;
            self.counts.merged = self.counts.merged.saturating_add(1);
            self.lead_to(covering)?;
            self.forget(runs_before, kept_before);
            self.list.pop();
            return Ok(());
        }
        let number = self.met.len();
        self.lead_to(number)?;
        self.met.insert(key, number)?;
        self.keep(&runs)?;
        self.find_endings(&runs)?;
        let children = children_of(self.alloc, &self.runs, &runs)?;
        self.nodes.push(Node {
            runs,
            children,
            gone: 0,
            runs_before,
            kept_before,
            number,
        })?;
        Ok(())
    }

    /// The runs of all harts against the list, by their numbers.
    fn run_all(&mut self) -> Result<Vec<usize>, OutOfMemory> {
        let mut numbers = Vec::new(self.alloc);
        for hart in 0..self.guest.harts.len().min(64) {
            let number = self.run_hart(hart)?;
            numbers.push(number)?;
            if self.walk.sharing.grew() {
                break;
            }
        }
        Ok(numbers)
    }

    /// The runs of a hart against the list. To one that doesn't touch the bytes of its last store nothing is new.
    fn run_hart(&mut self, hart: usize) -> Result<usize, OutOfMemory> {
        let number = (hart % 64) as u8;
        let above = match self.nodes.last() {
            Some(node) => node.runs.get(hart).copied(),
            None => None,
        };
        if let (Some(above), Some(last)) = (above, self.list.last()) {
            let doubleword = last.bytes().doubleword;
            if last.hart != number && !self.walk.sharing.touches(number, doubleword) {
                return Ok(above);
            }
        }
        let against = Against {
            guest: self.guest,
            list: &self.list,
            hart: number,
        };
        let from = runs_at(&self.runs, above);
        let runs = runs_against(&mut self.walk, against, from)?;
        self.counts.is_cut |= runs.is_cut;
        let number = self.runs.len();
        self.runs.push(runs)?;
        Ok(number)
    }

    /// What the node leaves open: memory, and what each hart can do.
    fn key(&self, numbers: &[usize]) -> Result<Vec<u64>, OutOfMemory> {
        let pages = self.guest.code.pages();
        let mut key = Vec::new(self.alloc);
        for doubleword in self.list.doublewords(self.alloc)? {
            key.push(doubleword)?;
            key.push(self.list.doubleword_at(pages, doubleword, self.list.now()))?;
        }
        for (hart, number) in numbers.iter().enumerate() {
            if let Some(runs) = self.runs.get(*number) {
                let opened = Opened {
                    code: &self.guest.code,
                    list: &self.list,
                    sharing: &self.walk.sharing,
                    early: &self.walk.early,
                    hart: (hart % 64) as u8,
                };
                key.extend_from_slice(&key_of(self.alloc, &opened, runs)?)?;
            }
        }
        Ok(key)
    }

    /// Notes where the list of a node leads to.
    fn lead_to(&mut self, number: usize) -> Result<(), OutOfMemory> {
        if let (Some(node), Some(last)) = (self.nodes.last(), self.list.last()) {
            if let Some(kept) = self.kept.get_mut(node.number) {
                kept.children.push((last, number))?;
            }
        }
        Ok(())
    }

    /// Keeps the node, where nodes are kept.
    fn keep(&mut self, numbers: &[usize]) -> Result<(), OutOfMemory> {
        if !self.limits.keeps_nodes {
            return Ok(());
        }
        let mut harts = Vec::new(self.alloc);
        for number in numbers {
            if let Some(runs) = self.runs.get(*number) {
                harts.push(runs.copy()?)?;
            }
        }
        let kept = KeptNode {
            list: Vec::from_slice(self.alloc, self.list.stores())?,
            harts,
            children: Vec::new(self.alloc),
        };
        self.kept.push(kept)?;
        Ok(())
    }
}

/// The runs of a number, if there is one.
fn runs_at(runs: &[Runs], number: Option<usize>) -> Option<&Runs> {
    runs.get(number?)
}
