ghost use Rattle.std.specs.Prelude.{◌≡◌, ◌≤◌, ◌+◌, ◌<◌, ◌^◌, length};

use crate::settings::FenceSettings;
use fence_trials::FenceGuest;
use plan_hunt::Extent;
use std::alloc::Global;
use weak_executions::Opening;

/// A guest in which missing fences are searched for.
#[derive(Drop)]
pub(crate) struct Guest<'a> {
    pub alloc: Global,
    /// The file of the program.
    pub file: &'a [u8],
    pub settings: &'a FenceSettings,
    /// What each execution begins with.
    pub opening: Opening<'a>,
    /// What makes the executions.
    pub maker: FenceGuest<'a>,
    /// Which of them.
    pub extent: Extent,
    ghost few: { length opening.harts.now ≤ 64 },
    ghost below: { extent.first + extent.most < 2 ^ 32 },
}
