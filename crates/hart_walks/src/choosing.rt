//! The times at which a load can be done.
use crate::guest::Against;
use access_times::Bytes;
use pages::OutOfMemory;
use run_states::KnownDoubleword;
use std::alloc::Global;
use store_lists::{ByteSources, Time, has_place, number_with, opening_doubleword};

/// What a load reads at a time.
#[derive(Clone, Copy)]
pub struct Choice {
    pub time: Time,
    /// From where.
    pub sources: ByteSources,
}

/// Where a load's bytes come from at a time: for each the latest of the list before that time and of the hart's own stores.
pub fn sources_at(
    against: Against<'_>,
    known: &KnownDoubleword,
    bytes: Bytes,
    time: Time,
) -> ByteSources {
    let mut sources = against.list.sources(bytes, time);
    for k in 0..8 {
        if has_place(bytes.mask, k) && known.bytes[k].is_own {
            sources[k] = sources[k].max(known.bytes[k].place);
        }
    }
    sources
}

/// The number that is read from these sources.
pub fn number_from(
    against: Against<'_>,
    known: &KnownDoubleword,
    bytes: Bytes,
    address: u64,
    sources: &ByteSources,
) -> u64 {
    let mut number = 0;
    for k in 0..8 {
        if has_place(bytes.mask, k) {
            let own = &known.bytes[k];
            let byte = if own.is_own && own.place == sources[k] {
                own.value
            } else {
                byte_from(against, bytes.doubleword, sources[k], k)
            };
            number |= number_with(byte, address, k);
        }
    }
    number
}

/// A byte of the list, or the one that memory opened with.
fn byte_from(against: Against<'_>, doubleword: u64, source: Time, place: usize) -> u8 {
    let listed = if source == 0 {
        None
    } else {
        against.list.get(source - 1)
    };
    match listed {
        Some(store) => store.byte(place),
        None => opening_byte(against, doubleword, place),
    }
}

fn opening_byte(against: Against<'_>, doubleword: u64, place: usize) -> u8 {
    let number = opening_doubleword(against.guest.code.pages(), doubleword);
    (number.wrapping_shr(((place % 8) as u32).wrapping_mul(8)) % 256) as u8
}

/// The number that a hart reads of bytes that no other one touches.
pub fn private_number(
    against: Against<'_>,
    known: &KnownDoubleword,
    bytes: Bytes,
    address: u64,
) -> u64 {
    let mut number = 0;
    for k in 0..8 {
        if has_place(bytes.mask, k) {
            let byte = if known.bytes[k].is_own {
                known.bytes[k].value
            } else {
                opening_byte(against, bytes.doubleword, k)
            };
            number |= number_with(byte, address, k);
        }
    }
    number
}

/// The times from a bound on at which a load has other sources than before: the bound, and behind each later store to its bytes that it
/// would read.
pub fn choices(
    alloc: Global,
    against: Against<'_>,
    known: &KnownDoubleword,
    bytes: Bytes,
    bound: Time,
) -> Result<Vec<Choice>, OutOfMemory> {
    let mut choices = Vec::new(alloc);
    let mut sources = sources_at(against, known, bytes, bound);
    choices.push(Choice {
        time: bound,
        sources,
    })?;
    for place in against.list.places_at(bytes.doubleword) {
        if *place >= bound {
            let time = place.saturating_add(1);
            let next = sources_at(against, known, bytes, time);
            if next != sources {
                sources = next;
                choices.push(Choice { time, sources })?;
            }
        }
    }
    Ok(choices)
}

/// The one choice that the last store of the list adds: to read from it.
pub fn newest_choice(
    alloc: Global,
    against: Against<'_>,
    known: &KnownDoubleword,
    bytes: Bytes,
) -> Result<Vec<Choice>, OutOfMemory> {
    let mut choices = Vec::new(alloc);
    let time = against.list.now();
    let sources = sources_at(against, known, bytes, time);
    if sources != sources_at(against, known, bytes, time.saturating_sub(1)) {
        choices.push(Choice { time, sources })?;
    }
    Ok(choices)
}
