//! What the tests have in common.

ghost use Rattle.std.specs.Prelude.{◌≡◌, None};
ghost use Rattle.hart_step.specs.Registers.{HoldsZero};

use hart_step::{Hart, Stepped, step};
use pages::{Pages, Piece, Range};
use std::alloc::Global;
use std::test::Fail;

/// One page of guest memory with these words from address 0 on as its code.
pub(crate) fn memory(alloc: Global, words: [u32; 4]) -> Result<Pages, Fail> {
    let mut code = [0u8; 16];
    for (i, word) in words.iter().enumerate() {
        code[4 * i..4 * i + 4].copy_from_slice(&word.to_le_bytes());
    }
    let piece = Piece {
        start: 0,
        bytes: code.to_vec(alloc)?,
    };
    let code = Range { start: 0, len: 16 };
    Ok(Pages::new(alloc, 1, &[piece], &[code])?)
}

/// A hart at address 0, with these values in x1 and x2.
pub(crate) fn hart(a: u64, b: u64) -> Hart
    ensures running { result.stop ≡ None }
    ensures zeroed { HoldsZero result.x }
{
    let mut x = [0; 32];
    x[1] = a;
    x[2] = b;
    Hart {
        x,
        pc: 0,
        done: 0,
        stop: None,
    }
}

/// The answer of one word at address 0, and the hart after it.
pub(crate) fn after(alloc: Global, word: u32, a: u64, b: u64) -> Result<(Stepped, Hart), Fail> {
    let mut pages = memory(alloc, [word, 0, 0, 0])?;
    let mut h = hart(a, b);
    let answer = step(&mut h, &mut pages)?;
    Ok((answer, h))
}
