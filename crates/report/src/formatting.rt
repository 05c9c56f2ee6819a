//! How workers format the blocks of a report beside each other.

ghost use Rattle.std.specs.Prelude.{◌≡◌, ◌*◌, ◌<◌, ◌≤◌, ◌^◌, IfOk, length};
ghost use Rattle.report.specs.Blocks.{piece_text};

use crate::block::{Block, PutBody};
use crate::cut::Cut;
use crate::desk::{Claim, Desk};
use crate::piece::Piece;
use crate::run_state::RunState;
use pages::{OutOfMemory, Pages};
use report_lines::Line;
use round_schedule::MOST_WORKERS;
use std::alloc::Global;
use std::sync::{Condvar, Mutex, Wait};
use trace::Trace;

/// What the workers of a report share.
#[derive(Drop)]
pub(crate) struct Formatting<'a, B: PutBody> {
    alloc: Global,
    pages: &'a Pages,
    output: &'a [u8],
    trace: &'a Trace,
    cut: Cut,
    desk: Mutex<Desk<B>>,
    // Told of each block that is formatted or put.
    moved: Condvar,
    ghost bytes: { pages.now.memory.bytes ≡ B.bytes },
    ghost shown: { output.now ≡ B.output },
    ghost events: { trace.now.events ≡ B.events },
}

/// What the worker that puts the blocks does next.
#[derive(Drop)]
pub(crate) enum Turn<B: PutBody> {
    /// The next block is formatted, or memory for it was refused.
    Put(Result<Block<B>, OutOfMemory>),
    /// It isn't, and a block is to be formatted meanwhile.
    Format(Claim),
    /// Neither can be done.
    Nothing,
}

impl<'a, B: PutBody> Formatting<'a, B> {
    /// The work on a state and these events, of which no block is claimed.
    pub(crate) fn new(
        alloc: Global,
        cut: Cut,
        state: &RunState<'a>,
        trace: &'a Trace,
        workers: usize,
    ) -> Formatting<'a, B>
        requires bytes { state.now.pages.now.memory.bytes ≡ B.bytes }
        requires output { state.now.output.now ≡ B.output }
        requires events { trace.now.events ≡ B.events }
        requires some { 0 < workers }
        requires few { workers ≤ MOST_WORKERS }
    {
        let desk = Desk::new(cut.pieces(), 2 * workers);
        Formatting {
            alloc,
            pages: state.pages,
            output: state.output,
            trace,
            cut,
            desk: Mutex::new(desk),
            moved: Condvar::new(),
        }
    }

    /// The allocator of all texts.
    pub(crate) fn allocator(&self) -> Global {
        self.alloc
    }

    /// How many blocks there are.
    pub(crate) fn blocks(&self) -> usize {
        self.cut.pieces()
    }

    /// How many pages there are.
    pub(crate) fn page_count(&self) -> u32
        ensures bytes { 4096 * result ≡ length B.bytes }
        ensures most { result ≤ 16384 }
    {
        self.pages.count()
    }

    /// How many pages a block has, if so many are left.
    pub(crate) fn page_step(&self) -> u32
        ensures some { 0 < result }
        ensures most { result ≤ 16384 }
    {
        self.cut.step()
    }

    /// The output.
    pub(crate) fn output(&self) -> &[u8]
        ensures { result.now ≡ B.output }
    {
        self.output
    }

    /// How many events there are.
    pub(crate) fn event_count(&self) -> usize
        ensures { result ≡ length B.events }
    {
        self.trace.len()
    }

    /// Formats blocks until all are claimed, or all is over.
    pub(crate) fn work<R: Wait>(&self, rt: &R) {
        for _ in rt.forever() {
            let Some(claim) = self.claim(rt) else {
                break;
            };
            self.format_and_lay(rt, claim);
        }
    }

    /// Claims a block, once one is near enough to those that were put.
    fn claim<R: Wait>(&self, rt: &R) -> Option<Claim> {
        let mut desk = self
            .moved
            .wait_while(rt, self.desk.lock(rt), |desk| desk.is_full());
        desk.claim()
    }

    /// Formats a block, and lays it into its slot.
    pub(crate) fn format_and_lay<R: Wait>(&self, rt: &R, claim: Claim) {
        let (number, spare) = claim.into_fields();
        let piece = self.cut.piece(number);
        let block = Block::format(self.alloc, self.pages, self.trace, piece, spare);
        self.desk.lock(rt).lay(number, block);
        self.moved.notify_all();
    }

    /// What the worker that puts the blocks does next. It waits only for a block that another worker formats.
    pub(crate) fn turn<R: Wait>(&self, rt: &R) -> Turn<B> {
        let mut desk = self
            .moved
            .wait_while(rt, self.desk.lock(rt), |desk| desk.is_idle());
        match desk.next() {
            Some(block) => Turn::Put(block),
            None => match desk.claim() {
                Some(claim) => Turn::Format(claim),
                None => Turn::Nothing,
            },
        }
    }

    /// The lines of a piece. Which block was laid into its slot is seen here: another one is not put in its place.
    pub(crate) fn lines_of(&self, piece: Piece, block: Block<B>) -> Result<Line, OutOfMemory>
        ensures { IfOk result (λ l. l ≡ piece_text B.bytes B.events piece) }
    {
        if block.piece() == piece {
            return Ok(block.into_text());
        }
        let own = Block::<B>::format(self.alloc, self.pages, self.trace, piece, None)?;
        Ok(own.into_text())
    }

    /// Counts a block as put, and leaves its line as a spare one.
    pub(crate) fn count<R: Wait>(&self, rt: &R, line: Line) {
        self.desk.lock(rt).count(line);
        self.moved.notify_all();
    }

    /// Ends the work of all workers.
    pub(crate) fn end<R: Wait>(&self, rt: &R) {
        self.desk.lock(rt).end();
        self.moved.notify_all();
    }
}
