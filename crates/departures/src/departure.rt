use access_times::{Early, Promise, Stage};

/// How a memory operation departs from the order of its hart's program.
#[derive(Clone, Copy, PartialEq, Eq)]
pub enum Way {
    /// A load or an LR reads memory as it was before the so many-th newest store to its bytes.
    Old(u32),
    /// A plain store is held until the other harts have done so many operations.
    Late(u64),
    /// A store, an SC or an AMO is in memory before its hart comes to it.
    Early(Early),
}

/// A memory operation that departs from the order of its hart's program.
#[derive(Clone, Copy)]
pub struct Departure {
    /// The hart.
    pub hart: u8,
    /// How many instructions the hart had done before.
    pub step: u64,
    /// How it departs.
    pub way: Way,
}

impl Departure {
    /// What departures are sorted by: a hart's are in program order.
    fn key(&self) -> (u8, u64) {
        (self.hart, self.step)
    }
}

/// Departures by list.
#[derive(Drop)]
pub struct Listed {
    /// Sorted, and at most one for each step of a hart.
    departures: Vec<Departure>,
}

impl Listed {
    /// The list of these departures.
    pub fn new(departures: Vec<Departure>) -> Listed {
        let mut departures = departures;
        departures.sort_unstable_by_key(|departure| departure.key());
        Listed { departures }
    }

    /// Whether none is listed.
    #[inline]
    pub fn is_empty(&self) -> bool {
        self.departures.is_empty()
    }

    /// The store that is to come early: of several the first in the list.
    pub fn early(&self) -> Option<Promise> {
        for departure in &self.departures {
            if let Way::Early(early) = departure.way {
                return Some(Promise {
                    hart: departure.hart,
                    step: departure.step,
                    early,
                    stage: Stage::Ahead,
                });
            }
        }
        None
    }

    /// How a hart departs at a step, if it does.
    pub fn at(&self, hart: u8, step: u64) -> Option<Way> {
        match self
            .departures
            .binary_search_by_key(&(hart, step), |departure| departure.key())
        {
            Ok(index) => Some(self.departures[index].way),
            Err(_) => None,
        }
    }
}
