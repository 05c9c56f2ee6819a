//! Endings that are told while a hunt goes on, so that none is lost where it is ended before its table.

use crate::repeating::ending_line_of;
use command_line::Hunt;
use plan_hunt::{HuntObserver, Row};
use program_files::{ProgressLine, World};
use std::alloc::{AllocError, Global};
use std::sync::atomic::{AtomicUsize, Ordering};

/// Says on standard error the line that repeats each new ending, where the line asks for progress, and tells who looks on of everything.
#[derive(Drop)]
pub struct Finds<'a, P, W> {
    /// The line, but for the number; none where nothing is told.
    line: Option<String>,
    seed: u64,
    progress: &'a P,
    pub(crate) world: &'a W,
    /// How many endings were told.
    told: AtomicUsize,
}

impl<'a, P: ProgressLine, W: World> Finds<'a, P, W> {
    /// The finds of a hunt that begins now.
    ///
    /// # Errors
    ///
    /// The allocator's alone.
    pub(crate) fn new(
        alloc: Global,
        asked: &Hunt<'_>,
        progress: &'a P,
        world: &'a W,
    ) -> Result<Self, AllocError> {
        let line = if asked.search.program.progress {
            Some(ending_line_of(alloc, asked)?)
        } else {
            None
        };
        Ok(Finds {
            line,
            seed: asked.search.seed,
            progress,
            world,
            told: AtomicUsize::new(0),
        })
    }
}

impl<P: ProgressLine, W: World> HuntObserver for Finds<'_, P, W> {
    fn before_block(&self, done: u32, rows: &[Row]) -> u32 {
        if let Some(line) = &self.line {
            let told = self.told.swap(rows.len(), Ordering::SeqCst);
            let seed = self.seed;
            for (index, row) in rows.iter().enumerate().skip(told) {
                let (number, first) = (index.saturating_add(1), row.first);
                self.progress.end();
                self.world.tell(format_args!(
                    "found ending {number}: {line} --plan-number {first} --seed {seed}"
                ));
            }
        }
        self.progress.before_block(done, rows)
    }

    fn has_time(&self) -> bool {
        self.progress.has_time()
    }

    fn after_plan(&self) {
        self.progress.after_plan();
    }

    fn after_rounds(&self, rounds: u32) {
        self.progress.after_rounds(rounds);
    }
}
