ghost use Rattle.std.specs.Prelude.{◌≡◌, []};

use hart_rounds::HartEnd;
use hart_step::Access;
use std::alloc::Global;
use std::mem;

/// Lists of the rounds before, kept for their room: no round allocates them anew.
// docs/decisions/threads.md
pub(crate) struct SpareLists {
    /// What the harts of an earlier round left. One that had stopped then isn't copied once more.
    pub(crate) ends: Vec<HartEnd>,
    /// Room for the accesses of one hart's round at a time.
    pub(crate) accesses: Vec<Access>,
}

// By hand, so that a proof has one step for it wherever one is dropped, in this crate and above.
impl Drop for SpareLists {
    fn drop(self) {
        let SpareLists { ends, accesses } = self;
        drop(ends);
        drop(accesses);
    }
}

impl SpareLists {
    /// Lists with no room yet.
    pub(crate) fn new(alloc: Global) -> SpareLists
        ensures { result.ends.items ≡ [] }
    {
        SpareLists {
            ends: Vec::new(alloc),
            accesses: Vec::new(alloc),
        }
    }

    /// Takes out what the harts of an earlier round left.
    pub(crate) fn take_ends(&mut self, alloc: Global) -> Vec<HartEnd>
        ensures taken { result ≡ self.old.ends }
        ensures left { self.new.ends.items ≡ [] }
    {
        mem::replace(&mut self.ends, Vec::new(alloc))
    }
}
