//! Images and plans, read from their files, and the files themselves.

use crate::calls::Outcome;
use crate::guest::GUEST;
use elf_loader::{Image, load_elf, load_flat};
use host_io::{ReadSource, read_all};
use pages::Range;
use round_planner::Plan;
use std::alloc::Global;

/// A header, one program header (X and R, 8 bytes from offset 120 to address 0x1000) and the code ADDI x17,x0,0; ECALL.
static PROGRAM: [u8; 128] = *b"\x7fELF\x02\x01\x01\0\0\0\0\0\0\0\0\0\
    \x02\0\xf3\0\x01\0\0\0\0\x10\0\0\0\0\0\0\
    \x40\0\0\0\0\0\0\0\0\0\0\0\0\0\0\0\
    \0\0\0\0\x40\0\x38\0\x01\0\0\0\0\0\0\0\
    \x01\0\0\0\x05\0\0\0\x78\0\0\0\0\0\0\0\
    \0\x10\0\0\0\0\0\0\0\x10\0\0\0\0\0\0\
    \x08\0\0\0\0\0\0\0\x08\0\0\0\0\0\0\0\
    \0\x10\0\0\0\0\0\0\x93\x08\0\0\x73\0\0\0";

/// Whether an image has this code alone, from an address on, and begins with it.
fn is_image(image: &Image, start: u64, code: &[u8], pages: u32) -> bool {
    let range = Range {
        start,
        len: code.len() as u64,
    };
    let is_piece = match image.pieces() {
        [piece] => piece.start == start && piece.bytes.as_slice() == code,
        _ => false,
    };
    is_piece
        && image.code() == [range].as_slice()
        && image.entry() == start
        && image.pages() == pages
}

/// The image of an ELF file.
pub(crate) fn elf(alloc: Global) -> Outcome {
    match load_elf(alloc, &PROGRAM, 2) {
        Ok(image) => Outcome::of(is_image(&image, 0x1000, &PROGRAM[120..], 2)),
        Err(error) => Outcome::refused(&error),
    }
}

/// The image of a flat file.
pub(crate) fn flat(alloc: Global) -> Outcome {
    match load_flat(alloc, &GUEST, 1) {
        Ok(image) => Outcome::of(is_image(&image, 0, &GUEST, 1)),
        Err(error) => Outcome::refused(&error),
    }
}

/// All that a source gives.
pub(crate) fn source(alloc: Global) -> Outcome {
    match read_all(alloc, &mut ReadSource::new(GUEST.as_slice())) {
        Ok(bytes) => Outcome::of(bytes.as_slice() == GUEST.as_slice()),
        Err(error) => Outcome::refused(&error),
    }
}

/// Whether a plan has rows of 3 and 2, and of 3 and 3, and so again.
fn is_plan(plan: &Plan) -> bool {
    plan.harts() == 2
        && plan.budget() == 1
        && [(1, 3, 2), (2, 3, 3), (3, 3, 2)].iter().all(|(round, first, second)| {
            plan.quota(*round, 0) == *first && plan.quota(*round, 1) == *second
        })
}

/// The text of that plan.
const PLAN: &[u8] = b"3 2\n3 3\n";

/// The plan of a text.
pub(crate) fn plan(alloc: Global) -> Outcome {
    match Plan::parse(alloc, PLAN, 2) {
        Ok(plan) => Outcome::of(is_plan(&plan)),
        Err(error) => Outcome::refused(&error),
    }
}

/// The copy of a plan, which stays as it is.
pub(crate) fn plan_copy(alloc: Global) -> Outcome {
    match Plan::parse(alloc, PLAN, 2) {
        Ok(plan) => copy_of(alloc, &plan),
        Err(error) => Outcome::before(&error),
    }
}

fn copy_of(alloc: Global, plan: &Plan) -> Outcome {
    match plan.copy(alloc) {
        Ok(copy) => Outcome::of(is_plan(plan) && is_plan(&copy)),
        Err(error) => Outcome::refused(&error),
    }
}
