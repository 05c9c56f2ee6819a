ghost use Rattle.std.specs.Prelude.{◌≡◌, ◌≤◌, ◌++◌, [], ◌∷◌, IfOk, OnOk, length};
ghost use Rattle.std.specs.List.{prefix_len};
ghost use Rattle.hunt_table.specs.Names.{is_name_byte};
ghost use Rattle.hunt_table.specs.Reading.{bytes_at, bytes_of, name_after, name_at, ranges_of, seen_at, seen_line_at};

use crate::range_name::{RangeName, is_name_byte};
use crate::reading::cursor::{byte_at, hex_at, skip, word_at};
use crate::reading::growing::push;
use crate::seen_range::SeenRange;
use pages::OutOfMemory;
use std::alloc::Global;

/// The ranges of an ending, and the bytes of all of them.
#[derive(Drop)]
pub(crate) struct Seen {
    pub ranges: Vec<SeenRange>,
    pub bytes: Vec<u8>,
}

/// Adds so many bytes, of two digits each.
fn add_bytes(bytes: &mut Vec<u8>, text: &[u8], count: usize) -> Result<(), OutOfMemory>
    ensures { OnOk result (bytes.new.items ≡ bytes.old.items ++ bytes_at count text.now) }
{
    let mut rest = text;
    'bytes: for _ in 0..count {
        push(bytes, (hex_at(rest, 2) % 256) as u8)?;
        rest = skip(rest, 2);
    }
    Ok(())
}

/// How many bytes at the front may stand in a name.
fn name_len(text: &[u8]) -> usize
    ensures count { result ≡ prefix_len is_name_byte text.now }
    ensures within { result ≤ length text.now }
{
    for (position, byte) in text.iter().enumerate() {
        if !is_name_byte(*byte) {
            return position;
        }
    }
    text.len()
}

/// What stands behind a blank, as far as a name may, and what follows.
fn name_after(alloc: Global, text: &[u8]) -> Result<(Option<RangeName>, &[u8]), OutOfMemory>
    ensures name { IfOk result (λ r. r.0 ≡ (name_after text.now).0) }
    ensures rest { IfOk result (λ r. r.1.now ≡ (name_after text.now).1) }
{
    let (name, rest) = text.split_at(name_len(text));
    Ok((RangeName::of(Vec::from_slice(alloc, name)?), rest))
}

/// The name at the front, if there is a blank.
#[tactic(auto, unfolding(crate::specs::Reading::name_at))]
fn name_at(alloc: Global, text: &[u8]) -> Result<(Option<RangeName>, &[u8]), OutOfMemory>
    ensures name { IfOk result (λ r. r.0 ≡ (name_at text.now).0) }
    ensures rest { IfOk result (λ r. r.1.now ≡ (name_at text.now).1) }
{
    if byte_at(text, 0) == b' ' {
        name_after(alloc, skip(text, 1))
    } else {
        Ok((None, text))
    }
}

impl Seen {
    /// Adds what the line of a range says, and gives the lines after it.
    #[tactic(auto, unfolding(crate::specs::Reading::seen_line_at))]
    fn add_line<'a>(&mut self, alloc: Global, text: &'a [u8]) -> Result<&'a [u8], OutOfMemory>
        ensures ranges { OnOk result (self.new.ranges.items ≡
            self.old.ranges.items ++ (seen_line_at text.now).0.0 ∷ []) }
        ensures bytes { OnOk result (self.new.bytes.items ≡
            self.old.bytes.items ++ (seen_line_at text.now).0.1) }
        ensures rest { IfOk result (λ r. r.now ≡ (seen_line_at text.now).1) }
    {
        let digits = skip(text, "see ".len());
        let address = hex_at(digits, 8).min(u64::from(u32::MAX)) as u32;
        let (length, rest) = word_at(skip(digits, 9));
        let rest = skip(rest, 1);
        let count = (length as usize).min(rest.len() / 2);
        add_bytes(&mut self.bytes, rest, count)?;
        let (name, rest) = name_at(alloc, skip(rest, 2 * count))?;
        let range = SeenRange {
            address,
            length,
            name,
        };
        push(&mut self.ranges, range)?;
        Ok(skip(rest, 1))
    }
}

/// The lines of ranges at the front, and the lines after them.
pub(crate) fn seen_at(alloc: Global, text: &[u8]) -> Result<(Seen, &[u8]), OutOfMemory>
    ensures ranges { IfOk result (λ r. r.0.ranges.items ≡ ranges_of (seen_at text.now).0) }
    ensures bytes { IfOk result (λ r. r.0.bytes.items ≡ bytes_of (seen_at text.now).0) }
    ensures rest { IfOk result (λ r. r.1.now ≡ (seen_at text.now).1) }
{
    let mut seen = Seen {
        ranges: Vec::new(alloc),
        bytes: Vec::new(alloc),
    };
    let mut rest = text;
    // There are no more lines than bytes.
    'lines: for _ in 0..text.len() {
        if byte_at(rest, 0) != b's' {
            break;
        }
        rest = seen.add_line(alloc, rest)?;
    }
    Ok((seen, rest))
}
