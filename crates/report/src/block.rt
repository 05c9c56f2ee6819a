//! The lines of a piece, whose type keeps that they are right.

ghost use Rattle.std.specs.Prelude.{◌≡◌, ℕ, List, [], IfOk};
ghost use Rattle.round_schedule.specs.declared.event.Event.{Event};
ghost use Rattle.report.specs.Blocks.{piece_text};

use crate::piece::{EVENTS, Piece};
use pages::{OutOfMemory, Pages};
use report_lines::Line;
use std::alloc::Global;
use std::marker::{Brand, PhantomData};
use trace::Trace;

/// How many bytes a block's text has room for at once: most lines of events have at most 72.
const BLOCK_BYTES: usize = 72 * EVENTS;

/// What is put, in proofs alone: memory, the output and the events. Each call that puts some picks them.
pub(crate) trait PutBody {
    ghost bytes: { List ℕ };

    ghost output: { List ℕ };

    ghost events: { List Event };
}

impl PutBody for Brand {
    ghost bytes = { [] };

    ghost output = { [] };

    ghost events = { [] };
}

/// The lines of one piece. A worker knows no more of what another one made than what this type says.
#[derive(Drop)]
pub(crate) struct Block<B: PutBody> {
    piece: Piece,
    text: Line,
    of: PhantomData<B>,
    ghost right: { text ≡ piece_text B.bytes B.events piece },
}

impl<B: PutBody> Block<B> {
    fn new(piece: Piece, text: Line) -> Block<B>
        requires { text ≡ piece_text B.bytes B.events piece }
        ensures { result.piece ≡ piece }
    {
        Block {
            piece,
            text,
            of: PhantomData,
        }
    }

    /// Formats a piece, in a line that is taken for its capacity if there is one.
    pub(crate) fn format(
        alloc: Global,
        pages: &Pages,
        trace: &Trace,
        piece: Piece,
        spare: Option<Line>,
    ) -> Result<Block<B>, OutOfMemory>
        requires bytes { pages.now.memory.bytes ≡ B.bytes }
        requires events { trace.now.events ≡ B.events }
        ensures { IfOk result (λ b. b.piece ≡ piece) }
    {
        let mut text = emptied(alloc, spare)?;
        piece.add_to(&mut text, pages, trace)?;
        Ok(Block::new(piece, text))
    }

    /// Which piece it is.
    pub(crate) fn piece(&self) -> Piece
        ensures { result ≡ self.now.piece }
    {
        self.piece
    }

    /// Its lines.
    pub(crate) fn into_text(self) -> Line
        ensures { result ≡ piece_text B.bytes B.events self.piece }
    {
        self.text
    }
}

/// A line with no text: one that was put already, or one with room for a block.
fn emptied(alloc: Global, spare: Option<Line>) -> Result<Line, OutOfMemory>
    ensures { IfOk result (λ l. l ≡ []) }
{
    match spare {
        Some(mut line) => {
            line.clear();
            Ok(line)
        }
        None => Line::with_capacity(alloc, BLOCK_BYTES),
    }
}
