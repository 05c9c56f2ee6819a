//! Code in memory, and decoded, and the harts that are to do it.

ghost use Rattle.std.specs.Prelude.{◌≤◌, IfOk, length};
ghost use Rattle.hart_step.specs.DecodedCode.{Shows};

use hart_step::{DecodedCode, Hart};
use pages::{OutOfMemory, Pages, Piece, Range};
use std::alloc::Global;

/// One page with these words from address 0 on as its code.
fn memory(alloc: Global, words: &[u32]) -> Result<Pages, OutOfMemory>
    requires { length words.now ≤ 6 }
{
    let mut code = [0u8; 24];
    for (i, word) in words.iter().enumerate() {
        code[4 * i..4 * i + 4].copy_from_slice(&word.to_le_bytes());
    }
    let len = 4 * words.len();
    let piece = Piece {
        start: 0,
        bytes: code[..len].to_vec(alloc)?,
    };
    let code = Range {
        start: 0,
        len: len as u64,
    };
    Pages::new(alloc, 1, &[piece], &[code])
}

/// The same, and these words decoded.
pub(crate) fn code_of(alloc: Global, words: &[u32]) -> Result<(Pages, DecodedCode), OutOfMemory>
    requires { length words.now ≤ 6 }
    ensures { IfOk result (λ r. Shows r.0.memory r.1.first r.1.instructions) }
{
    let pages = memory(alloc, words)?;
    let table = DecodedCode::new(alloc, &pages, 0, words.len())?;
    Ok((pages, table))
}

/// ADDI x6,x6,1; SD x6,256(x0); JAL x0,-8
pub(crate) const COUNT: [u32; 3] = [0x0013_0313, 0x1060_3023, 0xff9f_f06f];

/// Harts at address 0.
pub(crate) const HARTS: [Hart; 64] = [Hart {
    x: [0; 32],
    pc: 0,
    done: 0,
    stop: None,
}; 64];
