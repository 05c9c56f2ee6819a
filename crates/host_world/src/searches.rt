//! The weak hunts and the searches for fences of the host's world: those of weak_hunter and fence_finder. They are no functions of every world,
//! since threads are lent what looks on at them by its own type alone.
ghost use Rattle.std.specs.Prelude.{⊤};

use crate::world::HostWorld;
use fence_finder::{FenceFinder, FenceSettings, FoundFences, TimedExecuter};
use host_io::Sink;
use hunt_commands::{Finds, WeakHunts};
use plan_hunt::Tally;
use program_files::ProgramFiles;
use std::alloc::Global;
use std::sync::Wait;
use std::thread::Threads;
use weak_commands::{FenceFinds, FenceSearches};
use weak_hunter::{WeakHunt, WeakHuntError, hunt_weakly};

impl WeakHunts for HostWorld<'_> {
    ghost hunts = { λ _ _ _ _ _ _. ⊤ };

    fn hunt_weakly<S: Sink, R: Threads + Wait + Sync>(
        &self,
        rt: &R,
        alloc: Global,
        files: &ProgramFiles,
        asked: &WeakHunt<'_>,
        finds: &Finds<'_, Self::Progress, Self>,
        out: &mut S,
    ) -> Result<Tally, WeakHuntError> {
        hunt_weakly(rt, alloc, &files.image, &files.input, asked, finds, out)
    }
}

impl FenceSearches for HostWorld<'_> {
    ghost fences = { record { comes_to = λ _ _ _ _. ⊤; finds = λ _ _ _ _ _. ⊤ } };

    fn search_fences<S: Sink, R: Threads + Wait + Sync>(
        &self,
        rt: &R,
        alloc: Global,
        files: &ProgramFiles,
        settings: FenceSettings,
        finds: &FenceFinds<'_, Self::Progress, Self>,
        out: &mut S,
    ) -> Result<FoundFences, WeakHuntError> {
        let finder = FenceFinder {
            executer: &TimedExecuter,
            observer: finds,
        };
        finder.find_fences(rt, alloc, &files.image, &files.input, settings, out)
    }
}
