//! Guest memory, and the buffer that is seen over it.

ghost use Rattle.std.specs.Prelude.{◌≡◌, ◌%◌, ◌<◌};
ghost use Rattle.pages.specs.Memory.{width_bytes};

use crate::calls::Outcome;
use crate::ending::Ending;
use host_io::RunError;
use pages::{OutOfMemory, Pages, Piece, Range, Store, Width};
use std::alloc::Global;
use store_buffer::StoreBuffer;

/// How many lines are put into a buffer.
const LINES: u64 = 40;

/// Puts one byte into each of many lines of a buffer. A refused put changes nothing.
pub(crate) fn try_put(alloc: Global) -> Ending {
    let (mut buffer, mut ending) = (StoreBuffer::new(alloc), Ending::Done);
    for number in 0..LINES {
        ending = ending.and(put_one(&mut buffer, number));
    }
    ending
}

/// Puts the byte of a line behind those of the lines before it.
fn put_one(buffer: &mut StoreBuffer, number: u64) -> Ending
    requires { number < 40 }
{
    match put(buffer, number) {
        Outcome::Refused if !has_put(buffer, number) => Ending::Changed,
        Outcome::Refused => Ending::second(put(buffer, number)),
        outcome => Ending::first(outcome),
    }
}

fn put(buffer: &mut StoreBuffer, number: u64) -> Outcome
    requires { number < 40 }
{
    match buffer.put(byte(number)) {
        Ok(()) => Outcome::of(has_put(buffer, number + 1)),
        Err(error) => Outcome::refused(&error),
    }
}

/// The byte of a line, as a store.
fn byte(number: u64) -> Store
    requires { number < 40 }
    ensures { result.address % width_bytes result.width ≡ 0 }
{
    Store {
        address: 64 * number,
        width: Width::W1,
        value: number + 1,
    }
}

/// Whether a buffer has the bytes of so many lines, and no other.
fn has_put(buffer: &StoreBuffer, lines: u64) -> bool {
    let mut number = 0;
    for store in buffer.stores() {
        if number >= lines || number >= LINES || store != byte(number) {
            return false;
        }
        number += 1;
    }
    number == lines
}

/// Four pages, of which page 1 is ready, since a byte lies in it.
fn pages(alloc: Global) -> Result<Pages, OutOfMemory> {
    let mut pieces = Vec::new(alloc);
    pieces.push(Piece {
        start: 4096,
        bytes: Vec::from_slice(alloc, &[7])?,
    })?;
    let code = [Range {
        start: 4096,
        len: 4,
    }];
    Pages::new(alloc, 4, &pieces, &code)
}

/// A call on these pages.
#[derive(Clone, Copy)]
pub(crate) enum OfPages {
    /// Makes one more page ready, and a spare.
    Prepare,
    Copy,
    /// A copy that shares the pages.
    Share,
}

/// Makes the call, or says what was refused before it.
pub(crate) fn try_pages(alloc: Global, call: OfPages) -> Result<Ending, RunError> {
    let mut pages = pages(alloc)?;
    Ok(call.tried(alloc, &mut pages))
}

impl OfPages {
    /// Makes the call, and once more where it was refused memory and the pages stand as they have to.
    fn tried(self, alloc: Global, pages: &mut Pages) -> Ending {
        if !is_opened(pages) || pages.count() != 4 {
            return Ending::Wrong;
        }
        match self.made(alloc, pages) {
            Outcome::Refused if !self.stands(pages) => Ending::Changed,
            Outcome::Refused => Ending::second(self.made(alloc, pages)),
            outcome => Ending::first(outcome),
        }
    }

    /// Whether pages are as a refused call has to leave them: no byte is changed, and where they aren't to be shared, the page that
    /// was ready stays ready.
    fn stands(self, pages: &Pages) -> bool {
        match self {
            OfPages::Share => has_bytes(pages),
            OfPages::Prepare | OfPages::Copy => is_opened(pages),
        }
    }

    fn made(self, alloc: Global, pages: &mut Pages) -> Outcome {
        match self {
            OfPages::Prepare => prepare(alloc, pages),
            OfPages::Copy => copy(alloc, pages),
            OfPages::Share => share(alloc, pages),
        }
    }
}

fn prepare(alloc: Global, pages: &mut Pages) -> Outcome {
    if pages.count() != 4 {
        return Outcome::Wrong;
    }
    match pages.prepare(alloc, &[2], 1) {
        Ok(()) => Outcome::of(is_prepared(pages)),
        Err(error) => Outcome::refused(&error),
    }
}

fn copy(alloc: Global, pages: &Pages) -> Outcome {
    match pages.copy(alloc) {
        Ok(copy) => Outcome::of(is_opened(pages) && is_opened(&copy)),
        Err(error) => Outcome::refused(&error),
    }
}

fn share(alloc: Global, pages: &mut Pages) -> Outcome {
    match pages.share(alloc) {
        Ok(copy) => Outcome::of(are_shared(pages, &copy)),
        Err(error) => Outcome::refused(&error),
    }
}

/// Whether both have the bytes of the trial, and neither the page in which one of them lies for its own.
fn are_shared(pages: &Pages, copy: &Pages) -> bool {
    has_bytes(pages) && has_bytes(copy) && !pages.ready(1) && !copy.ready(1)
}

/// Whether pages have that byte and no other, and page 1 is ready.
fn is_opened(pages: &Pages) -> bool {
    pages.ready(1) && has_bytes(pages)
}

/// Whether pages have that byte and no other.
fn has_bytes(pages: &Pages) -> bool {
    pages.count() == 4
        && (0..4).all(|page| match pages.page(page) {
            Some([first, rest @ ..]) => {
                *first == if page == 1 { 7 } else { 0 } && rest.iter().all(|byte| *byte == 0)
            }
            Some([]) => false,
            None => true,
        })
}

/// Whether one more page is ready, and there is a spare for the others.
fn is_prepared(pages: &Pages) -> bool {
    is_opened(pages) && pages.ready(2) && pages.spare() >= 1
}
