ghost use Rattle.std.specs.Prelude.{◌≡◌, ◌++◌, slice_get, IfOk, OnOk};
ghost use Rattle.round_schedule.specs.Accesses.{address_of, bytes_of};
ghost use Rattle.watching.specs.Saved.{bytes_from, saved_byte, saved_of};

use crate::watchpoint::{WatchKind, Watchpoint};
use pages::{OutOfMemory, Pages, Range};
use round_schedule::Access;
use std::alloc::Global;
use std::marker::Model;

/// The bytes of a range of memory at a moment.
#[derive(Drop)]
pub struct Saved {
    /// The range.
    range: Range,
    /// Its bytes: fewer where memory ends before.
    bytes: Vec<u8>,
}

impl Model for Saved {
    ghost use Rattle.watching.specs.Saved.{SavedBytes};

    ghost Value = { SavedBytes };

    ghost view = { λ s. record { range = s.range; bytes = s.bytes.items } };
}

/// The bytes of the ranges whose changes are told, as memory has them.
///
/// # Errors
///
/// `OutOfMemory` alone.
pub fn save(alloc: Global, pages: &Pages, watches: &[Watchpoint]) -> Result<Vec<Saved>, OutOfMemory>
    ensures { IfOk result (λ v. v.items ≡ saved_of watches.now pages.now.memory.bytes) }
{
    let mut found = Vec::new(alloc);
    add_saved(alloc, pages, watches, &mut found)?;
    Ok(found)
}

/// Adds them.
fn add_saved(
    alloc: Global,
    pages: &Pages,
    watches: &[Watchpoint],
    found: &mut Vec<Saved>,
) -> Result<(), OutOfMemory>
    ensures { OnOk result (found.new.items ≡
        found.old.items ++ saved_of watches.now pages.now.memory.bytes) }
{
    match watches {
        [] => Ok(()),
        [watch, rest @ ..] => {
            if watch.kind == WatchKind::Changes {
                let bytes = bytes_of(alloc, pages, watch.range)?;
                found.push(Saved {
                    range: watch.range,
                    bytes,
                })?;
            }
            add_saved(alloc, pages, rest, found)
        }
    }
}

/// The bytes of a range.
fn bytes_of(alloc: Global, pages: &Pages, range: Range) -> Result<Vec<u8>, OutOfMemory>
    ensures { IfOk result (λ v. v.items ≡ bytes_from pages.now.memory.bytes range.start range.len) }
{
    let mut bytes = Vec::new(alloc);
    let end = 4096 * u64::from(pages.count());
    let first = range.start.min(end);
    let count = range.len.min(end - first);
    for offset in 0..count {
        bytes.push(pages.byte(first + offset))?;
    }
    Ok(bytes)
}

/// These bytes at an access's addresses.
pub(crate) fn saved_at(access: &Access, bytes: Vec<u8>) -> Saved
    ensures { result ≡ record {
      range = record { start = address_of access.now; len = bytes_of access.now };
      bytes = bytes.items;
    } }
{
    Saved {
        range: Range {
            start: access.address(),
            len: access.byte_count(),
        },
        bytes,
    }
}

/// The saved byte at an address, where there is one.
pub(crate) fn saved_byte(saved: &[Saved], address: u128) -> Option<u8>
    ensures { result ≡ saved_byte saved.now address }
{
    match saved {
        [] => None,
        [one, rest @ ..] => {
            let start = u128::from(one.range.start);
            if start <= address && address < start + u128::from(one.range.len) {
                byte_at(&one.bytes, address - start)
            } else {
                saved_byte(rest, address)
            }
        }
    }
}

/// The byte at an offset.
fn byte_at(bytes: &[u8], offset: u128) -> Option<u8>
    ensures { result ≡ slice_get bytes.now offset }
{
    if offset < bytes.len() as u128 {
        Some(bytes[offset as usize])
    } else {
        None
    }
}
