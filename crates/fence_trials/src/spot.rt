ghost use Rattle.std.specs.Prelude.{◌↔◌, IsTrue};
ghost use Rattle.fence_trials.specs.Trials.{FailsAt, IsIn};

use crate::trying::{Found, Trial};
use fence_places::{Gap, Move};

/// Where a fence may stand.
#[derive(Clone, Copy, PartialEq, Eq, PartialOrd, Ord)]
pub enum Spot {
    /// Right before the instruction at an address.
    Before(u64),
    /// Right behind it.
    Behind(u64),
    /// Anywhere between two instructions.
    Between(u64, u64),
}

impl Spot {
    /// Whether it is in a gap.
    fn is_in(self, gap: &Gap) -> bool
        ensures { IsTrue result ↔ IsIn self gap.now }
    {
        match self {
            Spot::Behind(pc) => gap.earlier == pc,
            Spot::Before(pc) => gap.later == pc,
            Spot::Between(earlier, later) => gap.earlier == earlier && gap.later == later,
        }
    }
}

impl Found {
    /// The nearest gap that a spot is in.
    pub fn nearest(&self, spot: Spot) -> Option<Gap> {
        let mut nearest: Option<Gap> = None;
        for gap in &self.moves.gaps {
            let is_nearer = match nearest {
                Some(nearest) => gap.distance < nearest.distance,
                None => true,
            };
            if is_nearer && spot.is_in(gap) {
                nearest = Some(*gap);
            }
        }
        nearest
    }

    /// The nearest gap that a spot is in, and the operation that moved there.
    pub fn gap_at(&self, spot: Spot) -> Option<(Gap, Move)> {
        let gap = self.nearest(spot)?;
        let moved = self.moves.moves.get(gap.moved)?;
        Some((gap, *moved))
    }
}

impl Trial {
    /// Whether a number of which this came fails for want of a fence at a spot.
    pub fn fails_at(&self, spot: Spot) -> bool
        ensures { IsTrue result ↔ FailsAt spot self.now }
    {
        match self {
            Trial::Fails(found) => found.moves.gaps.iter().any(|gap| spot.is_in(gap)),
            Trial::Unconfirmed => true,
            Trial::Well | Trial::Ordinary | Trial::Running | Trial::Unnamed => false,
        }
    }
}
