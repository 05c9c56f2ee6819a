ghost use Rattle.std.specs.Prelude.{◌≡◌, [], false};

use crate::row::Row;
use std::alloc::Global;

/// The table of a hunt's plans that are done.
#[derive(Drop)]
pub struct Tally {
    /// The endings of these plans.
    pub rows: Vec<Row>,
    /// How many there are: from the first one on, without a gap.
    pub done: u32,
    /// Whether the hunt is over with them before all its plans.
    pub is_over: bool,
}

impl Tally {
    /// The table of a hunt of which no plan is done.
    pub fn new(alloc: Global) -> Self
        ensures rows { result.rows.items ≡ [] }
        ensures done { result.done ≡ 0 }
        ensures is_over { result.is_over ≡ false }
    {
        Tally {
            rows: Vec::new(alloc),
            done: 0,
            is_over: false,
        }
    }
}
