//! Single instructions.

use crate::calls::Outcome;
use crate::ending::Ending;
use crate::guest::GUEST;
use hart_step::{Buffered, Hart, Stepped, step};
use host_io::RunError;
use machine::{Format, load};
use pages::{OutOfMemory, Pages, Store, Width};
use round_schedule::Access;
use std::alloc::Global;
use store_buffer::StoreBuffer;

/// The guest's memory.
fn memory(alloc: Global) -> Result<Pages, RunError> {
    let image = load(alloc, Format::Flat, &GUEST, 1)?;
    Ok(Pages::new(alloc, image.pages(), image.pieces(), image.code())?)
}

/// The guest's store, into a buffer. A refused step leaves the hart as it was.
pub(crate) fn try_step(alloc: Global) -> Result<Ending, RunError> {
    let pages = memory(alloc)?;
    Ok(store_over(alloc, &pages))
}

/// The same over this memory.
fn store_over(alloc: Global, pages: &Pages) -> Ending {
    let mut x = [0; 32];
    x[7] = 1;
    let before = Hart {
        x,
        pc: 0xc,
        stop: None,
        done: 3,
    };
    let (mut hart, mut bus) = (before, Buffered::new(alloc, pages));
    match step(&mut hart, &mut bus) {
        Ok(answer) => Ending::first(has_stored(&before, &hart, answer, bus)),
        Err(OutOfMemory) if hart != before => Ending::Changed,
        Err(OutOfMemory) => match step(&mut hart, &mut bus) {
            Ok(answer) => Ending::second(has_stored(&before, &hart, answer, bus)),
            Err(OutOfMemory) => Ending::Wrong,
        },
    }
}

/// The whole outcome, where a hart has done the store, and the buffer has its bytes and no other.
fn has_stored(before: &Hart, hart: &Hart, answer: Stepped, bus: Buffered<'_>) -> Outcome {
    let store = Access::Store {
        width: Width::W8,
        place: 3,
        address: 0x100,
        written: 1,
    };
    let after = Hart {
        pc: 0x10,
        done: 4,
        ..*before
    };
    let is_done = answer == Stepped::Done(Some(store)) && *hart == after;
    Outcome::of(is_done && has_bytes(&bus.into_buffer()))
}

/// Whether a buffer has the eight bytes of the number 1 at 0x100, and no other.
fn has_bytes(buffer: &StoreBuffer) -> bool {
    let mut stores = buffer.stores();
    for address in 0x100..0x108 {
        let byte = Store {
            address,
            width: Width::W1,
            value: u64::from(address == 0x100),
        };
        if stores.next() != Some(byte) {
            return false;
        }
    }
    stores.next().is_none()
}
