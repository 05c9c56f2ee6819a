ghost use Rattle.std.specs.Prelude.{◌≡◌, ◌↔◌, ◌<◌, IsTrue};
ghost use Rattle.hunt_table.specs.Ranges.{AreAlike, IsAlike};

use crate::range_name::{RangeName, are_same_names};

/// Bytes of memory that are looked at when a run ends.
pub struct SeenRange {
    /// The address of the first byte.
    pub address: u32,
    /// How many bytes there are.
    pub length: u32,
    /// The object that they are, where it was asked for by its name.
    pub name: Option<RangeName>,
}

// By hand, so that a proof has one step for it wherever one is dropped, in this crate and above.
impl Drop for SeenRange {
    fn drop(self) {
        let SeenRange {
            address: _,
            length: _,
            name,
        } = self;
        drop(name);
    }
}

impl SeenRange {
    /// Whether two ranges have the same bytes and the same name.
    pub fn is_same(&self, other: &SeenRange) -> bool
        ensures { IsTrue result ↔ (self.now ≡ other.now) }
    {
        self.address == other.address
            && self.length == other.length
            && are_same_names(&self.name, &other.name)
    }

    /// Whether two ranges are of the same bytes, maybe of two builds of a program: as many of an object, wherever it lies, or else those at an
    /// address.
    pub fn is_alike(&self, other: &SeenRange) -> bool
        ensures { IsTrue result ↔ IsAlike self.now other.now }
    {
        self.length == other.length
            && are_same_names(&self.name, &other.name)
            && (self.name.is_some() || self.address == other.address)
    }
}

/// Whether two lists have the same ranges, in one order.
pub fn are_same_ranges(ranges: &[SeenRange], others: &[SeenRange]) -> bool
    ensures { IsTrue result ↔ (ranges.now ≡ others.now) }
{
    if ranges.len() != others.len() {
        return false;
    }
    for (index, range) in ranges.iter().enumerate() {
        if !range.is_same(&others[index]) {
            return false;
        }
    }
    true
}

/// Whether two lists have the same bytes, in one order, maybe of two builds of a program.
pub fn are_alike_ranges(ranges: &[SeenRange], others: &[SeenRange]) -> bool
    ensures { IsTrue result ↔ AreAlike ranges.now others.now }
{
    if ranges.len() != others.len() {
        return false;
    }
    for index in 0..ranges.len() {
        if !ranges[index].is_alike(&others[index]) {
            return false;
        }
    }
    true
}
