//! How a report is cut into pieces, which workers format beside each other.

ghost use Rattle.std.specs.Prelude.{◌≡◌, ◌+◌, ◌*◌, ◌<◌, ◌≤◌, ◌^◌, length};

use crate::piece::{EVENTS, Piece};
use pages::Pages;
use trace::Trace;

/// How many pages that hold bytes a piece of memory is to have: their lines fit the room of a block.
const PAGES: u32 = 6;

/// The most pages that one piece may have, where few of them hold bytes.
const MOST_PAGES: u32 = 96;

/// So many pieces one worker has done before a thread is started.
const FEW: usize = 16;

/// Into which pieces a report is cut: first those of memory, then those of the events.
#[derive(Drop)]
pub(crate) struct Cut {
    step: u32,
    memory: u32,
    events: usize,
    ghost some: { 0 < step },
    ghost most: { step ≤ 16384 },
    ghost bounded: { 1024 * events < 2 ^ 64 + 1024 },
}

impl Cut {
    /// The pieces of memory and of these events.
    pub(crate) fn of(pages: &Pages, trace: &Trace) -> Cut {
        let count = pages.count();
        let step = pages_a_piece(count, held(pages));
        Cut {
            step,
            memory: count.div_ceil(step),
            events: trace.len().div_ceil(EVENTS),
        }
    }

    /// How many pages a piece of memory has, if so many are left.
    pub(crate) fn step(&self) -> u32
        ensures some { 0 < result }
        ensures most { result ≤ 16384 }
    {
        self.step
    }

    /// How many pieces there are.
    pub(crate) fn pieces(&self) -> usize {
        self.memory as usize + self.events
    }

    /// Whether there is so little that one worker has it done before a thread is started.
    pub(crate) fn is_short(&self) -> bool {
        self.pieces() <= FEW
    }

    /// A piece by its number. Each block's piece is compared with the one that is to be put, so nothing rests on this.
    pub(crate) fn piece(&self, number: usize) -> Piece {
        let memory = self.memory as usize;
        if number < memory {
            Piece::Pages {
                first: (number as u32).saturating_mul(self.step),
                count: self.step,
            }
        } else {
            Piece::Events {
                start: (number - memory).saturating_mul(EVENTS),
            }
        }
    }
}

/// How many pages hold bytes. The others have no lines.
fn held(pages: &Pages) -> u32 {
    let mut held = 0;
    for page in 0..pages.count() {
        if pages.page(page).is_some() {
            held += 1;
        }
    }
    held
}

/// How many pages a piece has, where so many of all of them hold bytes: all, or so many that about 6 of them hold some.
fn pages_a_piece(count: u32, held: u32) -> u32
    requires { count ≤ 16384 }
    ensures some { 0 < result }
    ensures most { result ≤ 16384 }
{
    if held <= PAGES {
        return count.max(1);
    }
    (PAGES * count / held).clamp(PAGES, MOST_PAGES)
}
