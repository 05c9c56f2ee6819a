//! The places of a hart's runs, each beside those with the same mark.
ghost use Rattle.std.specs.Prelude.{◌≡◌, [], IsTrue, OnOk};
ghost use Rattle.list_suffixes.specs.SettledWalks.{AreAhead};
ghost use Rattle.run_places.specs.Spots.{Grows, spot_of, spots_of};

use crate::ahead::stands_for;
use crate::marking::mark_of;
use crate::place::{Place, is_itself};
use pages::OutOfMemory;
use std::alloc::Global;
use std::collections::HashMap;

/// Places of a hart's runs: of those that were come to, each for which none stands that was come to before.
#[derive(Drop)]
pub struct Places {
    /// In the order in which they were come to.
    pub all: Vec<Place>,
    /// Of each mark the latest of the places that have it, and of each place the one before it with the same mark. No more hangs on them
    /// than which places are looked at.
    latest: HashMap<u64, usize>,
    before: Vec<Option<usize>>,
}

impl Places {
    /// None so far.
    pub fn new(alloc: Global) -> Places
        ensures { result.all.items ≡ [] }
    {
        Places {
            all: Vec::new(alloc),
            latest: HashMap::new(alloc),
            before: Vec::new(alloc),
        }
    }

    /// Adds a place, unless one that is there stands for it.
    ///
    /// # Errors
    ///
    /// `OutOfMemory` alone.
    pub fn add(&mut self, place: Place) -> Result<(), OutOfMemory>
        ensures grows { OnOk result (Grows self.old.all.items self.new.all.items) }
        ensures covered { OnOk result (AreAhead (spots_of self.new.all.items) (spot_of place)) }
    {
        let mark = mark_of(&place);
        if self.covers(&place, mark) {
            return Ok(());
        }
        let index = self.all.len();
        let before = self.latest.insert(mark, index)?;
        self.before.push(before)?;
        is_itself(&place);
        self.all.push(place)?;
        Ok(())
    }

    /// Whether one that is there, with the same mark, stands for a place.
    fn covers(&self, place: &Place, mark: u64) -> bool
        ensures { IsTrue result →
            AreAhead (spots_of self.now.all.items) (spot_of place.now) }
    {
        let mut at = self.latest.get(&mark).copied();
        for _ in 0..self.all.len() {
            let index = match at {
                Some(index) => index,
                None => return false,
            };
            if stands_at(&self.all, index, place) {
                return true;
            }
            at = match self.before.get(index) {
                Some(before) => *before,
                None => None,
            };
        }
        false
    }
}

/// Whether a place that is there stands for another one.
fn stands_at(all: &[Place], index: usize, place: &Place) -> bool
    ensures { IsTrue result → AreAhead (spots_of all.now) (spot_of place.now) }
{
    if index >= all.len() {
        return false;
    }
    stands_for(&all[index], place)
}
