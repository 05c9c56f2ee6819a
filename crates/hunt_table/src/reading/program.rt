ghost use Rattle.std.specs.Prelude.{◌≡◌};
ghost use Rattle.hunt_table.specs.Reading.{checksum_at, program_at};

use crate::fingerprint::Fingerprint;
use crate::reading::cursor::{byte_at, hex_at, number_at, skip};

/// The CRC-32 behind its word, with a length before it, and what follows its line.
fn checksum_at(text: &[u8], length: u64) -> (Option<Fingerprint>, &[u8])
    ensures program { result.0 ≡ (checksum_at length text.now).0 }
    ensures rest { result.1.now ≡ (checksum_at length text.now).1 }
{
    let checksum = hex_at(text, 8).min(u64::from(u32::MAX)) as u32;
    (Some(Fingerprint { length, checksum }), skip(text, 9))
}

/// The program whose line is at the front, where one is there, and the lines after it.
#[tactic(auto, unfolding(crate::specs::Reading::program_at))]
pub(crate) fn program_at(text: &[u8]) -> (Option<Fingerprint>, &[u8])
    ensures program { result.0 ≡ (program_at text.now).0 }
    ensures rest { result.1.now ≡ (program_at text.now).1 }
{
    // The line of the endings begins with another letter.
    if byte_at(text, 0) != b'p' {
        return (None, text);
    }
    let (length, rest) = number_at(skip(text, "program ".len()));
    checksum_at(skip(rest, " crc ".len()), length)
}
