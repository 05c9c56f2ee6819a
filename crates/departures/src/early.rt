//! Which stores could come before earlier loads of their harts.

use crate::departure::{Departure, Way};
use crate::draws::Stream;
use crate::record::{Deed, Record};
use crate::sharing::SharedBytes;
use access_times::{Early, Kind};
use pages::{OutOfMemory, Store};
use round_schedule::Access;
use std::alloc::Global;

/// How many operations of its hart are looked at before a store.
const LOOK_BACK: usize = 64;

/// The most doublings of the operations for which a hart waits once its store is in memory.
const WAITS: u64 = 12;

/// A store that could come before an earlier load of its hart.
#[derive(Clone, Copy, PartialEq, Eq, PartialOrd, Ord)]
struct Candidate {
    /// The addresses of the two instructions: instances of one pair are neighbours.
    load_pc: u64,
    store_pc: u64,
    /// The numbers of the two deeds.
    load: usize,
    store: usize,
}

/// What an ordinary execution has for candidates, pair by pair.
#[derive(Drop)]
pub struct EarlyStores<'a> {
    deeds: &'a [Deed],
    candidates: Vec<Candidate>,
    /// Where the candidates of each pair begin.
    pairs: Vec<usize>,
}

impl<'a> EarlyStores<'a> {
    /// Those of an execution without departures: the stores, SCs and AMOs to shared bytes before which, among the last operations of
    /// their hart, a load of other shared bytes stands that they could come before. Of these loads the nearest one is taken and the
    /// farthest.
    ///
    /// # Errors
    ///
    /// `OutOfMemory` alone.
    pub fn of(alloc: Global, record: &'a Record) -> Result<EarlyStores<'a>, OutOfMemory> {
        let deeds = record.deeds();
        let mut candidates = candidates_of(alloc, deeds)?;
        candidates.sort_unstable();
        let pairs = beginnings_of(alloc, &candidates)?;
        Ok(EarlyStores {
            deeds,
            candidates,
            pairs,
        })
    }

    /// Draws one of them: a pair of instructions, one of the candidates that has it, and how long its hart waits.
    pub fn draw(&self, stream: &mut Stream) -> Option<Departure> {
        let pair = below(stream, self.pairs.len())?;
        let first = *self.pairs.get(pair)?;
        let end = match self.pairs.get(pair.saturating_add(1)) {
            Some(end) => *end,
            None => self.candidates.len(),
        };
        let index = first.saturating_add(below(stream, end.saturating_sub(first))?);
        let candidate = self.candidates.get(index)?;
        let load = self.deeds.get(candidate.load)?;
        let store = self.deeds.get(candidate.store)?;
        departure_of(load, store, drawn_wait(stream))
    }
}

/// A number below a count, if there is one.
fn below(stream: &mut Stream, count: usize) -> Option<usize> {
    if count == 0 {
        return None;
    }
    Some((stream.next() % count as u64) as usize)
}

/// For how many operations of the others a hart waits: a few as often as many.
fn drawn_wait(stream: &mut Stream) -> u64 {
    let longest = match stream.next() {
        number if number % 2 == 0 => 32,
        number => 1 << (number / 2 % WAITS) as u32,
    };
    1 + stream.next() % longest.max(1)
}

/// The departure of a store that comes before a load.
fn departure_of(load: &Deed, store: &Deed, wait: u64) -> Option<Departure> {
    let (kind, written) = written_by(&store.access)?;
    Some(Departure {
        hart: store.hart,
        step: store.access.place(),
        way: Way::Early(Early {
            before: load.access.place(),
            kind,
            store: written,
            wait,
        }),
    })
}

/// What an access writes, if it writes.
fn written_by(access: &Access) -> Option<(Kind, Store)> {
    let (kind, address, width, value) = match *access {
        Access::Store {
            width,
            address,
            written,
            ..
        } => (Kind::Store, address, width, written),
        Access::StoreConditional {
            width,
            address,
            written: Some(written),
            ..
        } => (Kind::StoreConditional, address, width, written),
        Access::Atomic {
            width,
            address,
            written,
            ..
        } => (Kind::Atomic, address, width, written),
        _ => return None,
    };
    Some((
        kind,
        Store {
            address,
            width,
            value,
        },
    ))
}

/// All candidates, hart by hart.
fn candidates_of(alloc: Global, deeds: &[Deed]) -> Result<Vec<Candidate>, OutOfMemory> {
    let shared = SharedBytes::of(alloc, deeds)?;
    let mut harts: Vec<Vec<usize>> = Vec::new(alloc);
    for _ in 0..256 {
        harts.push(Vec::new(alloc))?;
    }
    let mut candidates = Vec::new(alloc);
    for (number, deed) in deeds.iter().enumerate() {
        if !shared.has(&deed.access) {
            continue;
        }
        if let Some(earlier) = harts.get_mut(usize::from(deed.hart)) {
            if deed.access.stores() {
                add_candidates(&mut candidates, deeds, earlier, number)?;
            }
            earlier.push(number)?;
        }
    }
    Ok(candidates)
}

/// Adds a store with the nearest and with the farthest of the loads that it could come before; `earlier` are the shared operations of its
/// hart before it.
fn add_candidates(
    candidates: &mut Vec<Candidate>,
    deeds: &[Deed],
    earlier: &[usize],
    number: usize,
) -> Result<(), OutOfMemory> {
    let Some(store) = deeds.get(number) else {
        return Ok(());
    };
    let mut nearest = None;
    let mut farthest = None;
    for index in earlier.iter().rev().take(LOOK_BACK) {
        let Some(other) = deeds.get(*index) else {
            break;
        };
        if time_of(other) < store.behind {
            break;
        }
        if do_meet(&store.access, &other.access) {
            // An SC takes its LR along.
            if !is_reserving(&other.access, &store.access) {
                break;
            }
        } else if other.access.loads() {
            let candidate = Candidate {
                load_pc: other.pc,
                store_pc: store.pc,
                load: *index,
                store: number,
            };
            nearest = nearest.or(Some(candidate));
            farthest = Some(candidate);
        }
    }
    for candidate in [
        nearest,
        farthest.filter(|farthest| Some(*farthest) != nearest),
    ] {
        if let Some(candidate) = candidate {
            candidates.push(candidate)?;
        }
    }
    Ok(())
}

/// How many stores were in memory when an operation was done.
fn time_of(deed: &Deed) -> u32 {
    if deed.access.stores() {
        deed.at.saturating_sub(1)
    } else {
        deed.at
    }
}

/// Whether an access is an LR of just the bytes of an SC.
fn is_reserving(access: &Access, other: &Access) -> bool {
    matches!(access, Access::LoadReserved { .. })
        && matches!(other, Access::StoreConditional { .. })
        && access.address() == other.address()
        && access.byte_count() == other.byte_count()
}

/// Whether two accesses have a byte in common.
pub fn do_meet(access: &Access, other: &Access) -> bool {
    let (start, others) = (access.address(), other.address());
    start < others.saturating_add(other.byte_count())
        && others < start.saturating_add(access.byte_count())
}

/// Where the candidates of each pair of instructions begin.
fn beginnings_of(alloc: Global, candidates: &[Candidate]) -> Result<Vec<usize>, OutOfMemory> {
    let mut beginnings = Vec::new(alloc);
    let mut last: Option<&Candidate> = None;
    for (index, candidate) in candidates.iter().enumerate() {
        let is_same =
            matches!(last, Some(last) if last.load_pc == candidate.load_pc && last.store_pc == candidate.store_pc);
        if !is_same {
            beginnings.push(index)?;
        }
        last = Some(candidate);
    }
    Ok(beginnings)
}
