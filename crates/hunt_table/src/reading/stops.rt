ghost use Rattle.std.specs.Prelude.{◌≡◌, IfOk};
ghost use Rattle.hunt_table.specs.Reading.{stop_at, stop_line_at, stops_at};

use crate::reading::cursor::{byte_at, hex_at, number_at, skip};
use crate::reading::growing::push;
use hart_step::Stop;
use pages::OutOfMemory;
use plan_hunt::HartEnding;
use std::alloc::Global;

/// How a hart ended, and what follows. The first letter tells which it is.
fn stop_at(text: &[u8]) -> (HartEnding, &[u8])
    ensures stop { result.0 ≡ (stop_at text.now).0 }
    ensures rest { result.1.now ≡ (stop_at text.now).1 }
{
    match byte_at(text, 0) {
        b'r' => (HartEnding::Runs, skip(text, "running".len())),
        b'l' => (HartEnding::Loops, skip(text, "loops".len())),
        b'e' => {
            let digits = skip(text, "exit ".len());
            let value = hex_at(digits, 16);
            (
                HartEnding::Stopped(Stop { code: 1, value }),
                skip(digits, 16),
            )
        }
        _ => {
            let (code, rest) = number_at(skip(text, "stop ".len()));
            let code = code.min(u64::from(u8::MAX)) as u8;
            (HartEnding::Stopped(Stop { code, value: 0 }), rest)
        }
    }
}

/// What a hart's line says, and the lines after it.
#[tactic(auto, unfolding(crate::specs::Reading::stop_line_at))]
fn stop_line_at(text: &[u8]) -> (HartEnding, &[u8])
    ensures stop { result.0 ≡ (stop_line_at text.now).0 }
    ensures rest { result.1.now ≡ (stop_line_at text.now).1 }
{
    let (_hart, rest) = number_at(skip(text, "hart ".len()));
    let (stop, rest) = stop_at(skip(rest, 1));
    (stop, skip(rest, 1))
}

/// The lines of harts at the front, and the lines after them.
pub(crate) fn stops_at(alloc: Global, text: &[u8]) -> Result<(Vec<HartEnding>, &[u8]), OutOfMemory>
    ensures stops { IfOk result (λ r. r.0.items ≡ (stops_at text.now).0) }
    ensures rest { IfOk result (λ r. r.1.now ≡ (stops_at text.now).1) }
{
    let mut stops = Vec::new(alloc);
    let mut rest = text;
    // There are no more lines than bytes.
    'lines: for _ in 0..text.len() {
        if byte_at(rest, 0) != b'h' {
            break;
        }
        let (stop, after) = stop_line_at(rest);
        push(&mut stops, stop)?;
        rest = after;
    }
    Ok((stops, rest))
}
