ghost use Rattle.std.specs.Prelude.{◌≡◌, ◌≤◌, length};

use hunt_table::SeenRange;
use std::alloc::Global;
use weak_executions::{Opening, WeakGuest};

/// A guest whose executions are looked at.
#[derive(Drop)]
pub(crate) struct Guest<'a> {
    pub alloc: Global,
    /// What each execution begins with.
    pub opening: Opening<'a>,
    /// What makes the executions.
    pub maker: WeakGuest<'a>,
    /// The bytes that are looked at when one ends.
    pub ranges: &'a [SeenRange],
    ghost few: { length opening.harts.now ≤ 64 },
}
