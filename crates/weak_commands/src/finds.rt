//! Places that are told and kept while a search goes on, so that none is lost where it is ended before its table.

use crate::keeping::keep_found;
use crate::repeating::Repeating;
use command_line::Fences;
use execution_scripts::ExecutionFile;
use fence_finder::FenceObserver;
use fence_table::NamedGap;
use program_files::{ProgressLine, World};
use std::alloc::{AllocError, Global};
use std::sync::atomic::{AtomicUsize, Ordering};

/// Says on standard error the line that repeats an execution at each new place, where the line asks for progress, writes the execution to a
/// file, where it names a folder, and tells who looks on of everything.
#[derive(Drop)]
pub struct FenceFinds<'a, P, W> {
    alloc: Global,
    /// None where nothing is told.
    repeating: Option<Repeating>,
    progress: &'a P,
    world: &'a W,
    /// Where executions are kept, if they are.
    folder: Option<&'a str>,
    /// How many were kept.
    kept: AtomicUsize,
}

impl<'a, P: ProgressLine, W: World + Copy> FenceFinds<'a, P, W> {
    /// The finds of a search that begins now.
    ///
    /// # Errors
    ///
    /// The allocator's alone.
    pub(crate) fn new(
        alloc: Global,
        asked: &Fences<'a>,
        progress: &'a P,
        world: &'a W,
    ) -> Result<Self, AllocError> {
        let repeating = if asked.search.program.progress {
            Some(Repeating::of(alloc, asked)?)
        } else {
            None
        };
        Ok(FenceFinds {
            alloc,
            repeating,
            progress,
            world,
            folder: asked.keep,
            kept: AtomicUsize::new(0),
        })
    }

    /// Writes an execution to a file of a folder. Where that fails, it is told at the end, of the executions that the table tells.
    fn keep(&self, folder: &str, execution: &ExecutionFile) {
        if folder.is_empty() {
            return;
        }
        let number = self.kept.fetch_add(1, Ordering::SeqCst).saturating_add(1);
        let mut world = *self.world;
        let _unwritten = keep_found(&mut world, self.alloc, folder, number, execution);
    }
}

impl<P: ProgressLine, W: World + Copy> FenceObserver for FenceFinds<'_, P, W> {
    fn before_block(&self, _done: u32, failing: usize) -> u32 {
        self.progress.before_numbers(failing)
    }

    fn has_time(&self) -> bool {
        self.progress.has_time()
    }

    fn after_number(&self) {
        self.progress.after_number();
    }

    fn after_rounds(&self, rounds: u32) {
        self.progress.after_execution(rounds);
    }

    fn found(&self, gap: &NamedGap, number: u32, execution: Option<&ExecutionFile>) {
        if let (Some(folder), Some(execution)) = (self.folder, execution) {
            self.keep(folder, execution);
        }
        if let Some(repeating) = &self.repeating {
            self.progress.end();
            let (earlier, later) = (gap.earlier.pc, gap.later.pc);
            let said = format_args!("found between {earlier:016x} and {later:016x}");
            repeating.tell(self.world, said, number, false);
        }
    }
}
