ghost use Rattle.std.specs.Prelude.{◌≡◌, IfOk};
ghost use Rattle.hunt_table.specs.Reading.{output_line_at, quoted_at, quoted_byte_at};

use crate::reading::cursor::{byte_at, hex_at, number_at, skip};
use crate::reading::growing::push;
use pages::OutOfMemory;
use std::alloc::Global;

/// A byte as it is written between quotes, and what follows.
#[tactic(auto, unfolding(crate::specs::Reading::quoted_byte_at))]
fn quoted_byte_at(text: &[u8]) -> (u8, &[u8])
    ensures byte { result.0 ≡ (quoted_byte_at text.now).0 }
    ensures rest { result.1.now ≡ (quoted_byte_at text.now).1 }
{
    let byte = byte_at(text, 0);
    if byte != b'\\' {
        return (byte, skip(text, 1));
    }
    let escaped = byte_at(text, 1);
    let rest = skip(text, 2);
    match escaped {
        b'n' => (b'\n', rest),
        b'x' => ((hex_at(rest, 2) % 256) as u8, skip(rest, 2)),
        _ => (escaped, rest),
    }
}

/// So many bytes, and what follows.
fn quoted_at(alloc: Global, text: &[u8], count: usize) -> Result<(Vec<u8>, &[u8]), OutOfMemory>
    ensures bytes { IfOk result (λ r. r.0.items ≡ (quoted_at count text.now).0) }
    ensures rest { IfOk result (λ r. r.1.now ≡ (quoted_at count text.now).1) }
{
    let mut bytes = Vec::new(alloc);
    let mut rest = text;
    'bytes: for _ in 0..count {
        let (byte, after) = quoted_byte_at(rest);
        push(&mut bytes, byte)?;
        rest = after;
    }
    Ok((bytes, rest))
}

/// The bytes of the output's line, and the lines after it.
#[tactic(auto, unfolding(crate::specs::Reading::output_line_at))]
pub(crate) fn output_line_at(alloc: Global, text: &[u8]) -> Result<(Vec<u8>, &[u8]), OutOfMemory>
    ensures bytes { IfOk result (λ r. r.0.items ≡ (output_line_at text.now).0) }
    ensures rest { IfOk result (λ r. r.1.now ≡ (output_line_at text.now).1) }
{
    let (length, rest) = number_at(skip(text, "output ".len()));
    let count = length.min(rest.len() as u64) as usize;
    let (bytes, rest) = quoted_at(alloc, skip(rest, 2), count)?;
    Ok((bytes, skip(rest, 2)))
}
