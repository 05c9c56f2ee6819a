//! What a hart's runs leave open: two lists of which this is equal for each hart, and memory too, have the same endings.
//!
//! What stands in the list before the least time that anything behind a settled state looks at makes no difference any more, so times
//! are counted from there on, along the stores that the hart may load early, or owes. A key is the numbers of these things, one after
//! another, and is compared whole.
use crate::bounds::Bounds;
use crate::known_bytes::{KnownByte, KnownDoubleword};
use crate::run_state::RunState;
use crate::runs::{Behind, EndedRun, RunEnd, Runs, Settled};
use early_loads::{EarlyLoads, GuestCode, KnownEarlyLoads};
use pages::OutOfMemory;
use std::alloc::Global;
use store_lists::{LATER, Reserved, Sharing, StoreList, Time, add_once, has_place};

/// Against what a hart ran.
#[derive(Clone, Copy)]
pub struct Opened<'a> {
    /// The guest.
    pub code: &'a GuestCode,
    /// The list.
    pub list: &'a StoreList,
    /// Who touches what.
    pub sharing: &'a Sharing,
    /// The loads that can be done early behind the addresses where a run broke off.
    pub early: &'a KnownEarlyLoads,
    /// The hart.
    pub hart: u8,
}

/// What of the list can still matter to a hart.
#[derive(Drop)]
struct Concern {
    /// Whether it may load early what it loads at all; else just the doublewords that follow.
    loads_any: bool,
    /// The doublewords that it may load early.
    loads: Vec<u64>,
    /// The places of the stores that it owes in some state.
    owed: Vec<Time>,
    /// Their doublewords, where it reads these.
    owed_reads: Vec<u64>,
}

/// How times are counted.
#[derive(Drop)]
struct Scale {
    /// For each time, how many stores before it matter.
    counted: Vec<Time>,
    /// The least time that is looked at.
    cut: Time,
    /// How many stores there are.
    now: Time,
}

/// What a hart's runs leave open.
///
/// # Errors
///
/// `OutOfMemory` alone.
pub fn key_of(alloc: Global, opened: &Opened<'_>, runs: &Runs) -> Result<Vec<u64>, OutOfMemory> {
    let concern = concern_of(alloc, opened, runs)?;
    let scale = scale_of(alloc, opened, runs, &concern)?;
    let mut parts = Vec::new(alloc);
    for settled in &runs.settled {
        parts.push(state_key(alloc, opened, settled, &scale)?)?;
    }
    for ended in &runs.ended {
        parts.push(end_key(alloc, ended)?)?;
    }
    parts.sort()?;
    parts.dedup();
    parts.push(window_key(alloc, opened, &concern, &scale)?)?;
    let mut key = vec![in alloc; parts.len() as u64]?;
    for part in &parts {
        key.push(part.len() as u64)?;
        key.extend_from_slice(part)?;
    }
    Ok(key)
}

/// What of the list can still matter to a hart.
fn concern_of(alloc: Global, opened: &Opened<'_>, runs: &Runs) -> Result<Concern, OutOfMemory> {
    let mut concern = Concern {
        loads_any: false,
        loads: Vec::new(alloc),
        owed: Vec::new(alloc),
        owed_reads: Vec::new(alloc),
    };
    for settled in &runs.settled {
        for place in &settled.state.owed {
            add_owed(opened, &mut concern, *place)?;
        }
        for doubleword in &settled.reach.doublewords {
            add_once(&mut concern.loads, *doubleword)?;
        }
        for behind in &settled.reach.behind {
            add_behind(opened, &mut concern, *behind)?;
        }
    }
    Ok(concern)
}

fn add_owed(opened: &Opened<'_>, concern: &mut Concern, place: Time) -> Result<(), OutOfMemory> {
    if concern.owed.contains(&place) {
        return Ok(());
    }
    concern.owed.push(place)?;
    if let Some(store) = opened.list.get(place) {
        let doubleword = store.bytes().doubleword;
        if opened.sharing.reads(opened.hart, doubleword) {
            add_once(&mut concern.owed_reads, doubleword)?;
        }
    }
    Ok(())
}

/// What a hart may load early behind where it isn't known what it does.
fn add_behind(
    opened: &Opened<'_>,
    concern: &mut Concern,
    behind: Behind,
) -> Result<(), OutOfMemory> {
    let Behind::From(pc) = behind else {
        concern.loads_any = true;
        return Ok(());
    };
    match opened.early.at(pc) {
        Some(EarlyLoads::At(loads)) => {
            for load in loads {
                for doubleword in opened.sharing.loaded_at(opened.hart, *load) {
                    add_once(&mut concern.loads, *doubleword)?;
                }
            }
        }
        Some(EarlyLoads::Any) | None => concern.loads_any = true,
    }
    Ok(())
}

/// Whether the hart may load a doubleword early.
fn may_load(opened: &Opened<'_>, concern: &Concern, doubleword: u64) -> bool {
    if concern.loads_any {
        opened.sharing.loads(opened.hart, doubleword)
    } else {
        concern.loads.contains(&doubleword)
    }
}

/// Whether it may read a doubleword as it was at a time that is past.
fn may_look_at(opened: &Opened<'_>, concern: &Concern, doubleword: u64) -> bool {
    may_load(opened, concern, doubleword) || concern.owed_reads.contains(&doubleword)
}

/// How times are counted.
fn scale_of(
    alloc: Global,
    opened: &Opened<'_>,
    runs: &Runs,
    concern: &Concern,
) -> Result<Scale, OutOfMemory> {
    let now = opened.list.now();
    let mut cut = now;
    for settled in &runs.settled {
        cut = cut.min(settled.reach.least);
    }
    let mut counted = Vec::with_capacity(alloc, opened.list.stores().len().saturating_add(1))?;
    let mut count: Time = 0;
    counted.push(count)?;
    for (place, store) in opened.list.stores().iter().enumerate() {
        let matters = may_look_at(opened, concern, store.bytes().doubleword)
            || is_among(&concern.owed, place);
        if matters {
            count = count.saturating_add(1);
        }
        counted.push(count)?;
    }
    Ok(Scale { counted, cut, now })
}

fn is_among(places: &[Time], place: usize) -> bool {
    for owed in places {
        if *owed as usize == place {
            return true;
        }
    }
    false
}

impl Scale {
    /// How many stores before a time matter.
    fn at(&self, time: Time) -> Time {
        match self.counted.get(time as usize) {
            Some(count) => *count,
            None => self.counted.last().copied().unwrap_or(0),
        }
    }

    /// The same from the least time on that is looked at.
    fn from_cut(&self, time: Time) -> u64 {
        u64::from(self.at(time).saturating_sub(self.at(self.cut)))
    }

    /// A time that bounds operations which are at least at another one: then it makes no difference if it isn't above.
    fn bound(&self, time: Time, least: Time) -> u64 {
        if time == LATER {
            u64::MAX
        } else if self.at(time) <= self.at(least) {
            0
        } else {
            self.from_cut(time).saturating_add(1)
        }
    }
}

/// What a settled state leaves open.
fn state_key(
    alloc: Global,
    opened: &Opened<'_>,
    settled: &Settled,
    scale: &Scale,
) -> Result<Vec<u64>, OutOfMemory> {
    let state = &settled.state;
    let least = settled.reach.least.min(scale.now);
    let mut key = Vec::new(alloc);
    key.push(0)?;
    key.push(state.hart.pc)?;
    key.push(scale.from_cut(least))?;
    let live = opened.code.live_at(state.hart.pc);
    for k in 1..32 {
        if live.has(k) {
            key.push(state.hart.x[k])?;
            key.push(scale.bound(state.bounds.registers[k], least))?;
        }
    }
    add_bounds(&mut key, &state.bounds, scale, least)?;
    key.push(state.owed.len() as u64)?;
    for place in &state.owed {
        key.push(scale.from_cut(*place))?;
    }
    add_reserved(&mut key, opened, state, scale, least)?;
    key.push(state.taken as u64)?;
    add_output(&mut key, &state.output)?;
    for known in state.known.doublewords() {
        add_known(&mut key, opened, known, scale, least)?;
    }
    Ok(key)
}

fn add_bounds(
    key: &mut Vec<u64>,
    bounds: &Bounds,
    scale: &Scale,
    least: Time,
) -> Result<(), OutOfMemory> {
    let times = [
        bounds.loads,
        bounds.stores,
        bounds.annotated,
        bounds.before_loads,
        bounds.before_stores,
        bounds.steering,
    ];
    for time in &times {
        key.push(scale.bound(*time, least))?;
    }
    Ok(())
}

/// A reservation: whether another hart has stored to its bytes since is all that the list still says of it, where nothing is owed.
fn add_reserved(
    key: &mut Vec<u64>,
    opened: &Opened<'_>,
    state: &RunState,
    scale: &Scale,
    least: Time,
) -> Result<(), OutOfMemory> {
    let Some(reserved) = state.reserved else {
        key.push(0)?;
        return Ok(());
    };
    key.push(if is_broken(opened, &reserved) { 2 } else { 1 })?;
    key.push(reserved.width.bytes())?;
    key.push(reserved.address)?;
    key.push(scale.bound(reserved.time, least))?;
    if !state.owes_none() {
        for source in &reserved.sources {
            key.push(u64::from(*source))?;
        }
    }
    Ok(())
}

/// Whether another hart's store to the bytes of a reservation stands behind what the LR read.
fn is_broken(opened: &Opened<'_>, reserved: &Reserved) -> bool {
    reserved.is_shared && opened.list.has_foreign(opened.hart, reserved, Time::MAX)
}

fn add_output(key: &mut Vec<u64>, output: &[u8]) -> Result<(), OutOfMemory> {
    key.push(output.len() as u64)?;
    for byte in output {
        key.push(u64::from(*byte))?;
    }
    Ok(())
}

/// What is known of a doubleword, where that still makes a difference.
fn add_known(
    key: &mut Vec<u64>,
    opened: &Opened<'_>,
    known: &KnownDoubleword,
    scale: &Scale,
    least: Time,
) -> Result<(), OutOfMemory> {
    let is_shared = opened.sharing.is_shared(known.doubleword);
    let mut numbers = [[0u64; 5]; 8];
    let mut is_nothing = true;
    for k in 0..8 {
        numbers[k] = byte_key(&known.bytes[k], is_shared, scale, least);
        is_nothing &= numbers[k] == [0; 5];
    }
    if is_nothing {
        return Ok(());
    }
    key.push(known.doubleword)?;
    for row in &numbers {
        key.extend_from_slice(row)?;
    }
    Ok(())
}

/// The same of a byte: an own store that can't be forwarded any more is left out.
fn byte_key(byte: &KnownByte, is_shared: bool, scale: &Scale, least: Time) -> [u64; 5] {
    let is_past = is_shared && byte.place != LATER && byte.place <= least;
    let (last, seen) = (scale.bound(byte.last, least), scale.bound(byte.seen, least));
    if !byte.is_own || is_past {
        return [0, 0, 0, last, seen];
    }
    let place = scale.bound(byte.place, least);
    let is_exclusive = byte.is_exclusive && place != 0;
    let held = u64::from(byte.value).saturating_mul(4);
    let kind = if is_exclusive { 3 } else { 1 };
    let depends = scale.bound(byte.depends, least);
    [held.saturating_add(kind), place, depends, last, seen]
}

/// What a run to its end leaves.
fn end_key(alloc: Global, ended: &EndedRun) -> Result<Vec<u64>, OutOfMemory> {
    let mut key = Vec::new(alloc);
    key.push(1)?;
    match ended.end {
        RunEnd::Stopped(stop) => {
            key.push(u64::from(stop.code))?;
            key.push(stop.value)?;
        }
        RunEnd::Waits(pc) => {
            key.push(0)?;
            key.push(pc)?;
        }
    }
    add_output(&mut key, &ended.output)?;
    Ok(key)
}

/// The stores that the hart may still read or owes, from the least time on that is looked at, and what stood in memory before them.
fn window_key(
    alloc: Global,
    opened: &Opened<'_>,
    concern: &Concern,
    scale: &Scale,
) -> Result<Vec<u64>, OutOfMemory> {
    let mut key = Vec::new(alloc);
    let mut doublewords = Vec::new(alloc);
    for (place, store) in opened.list.stores().iter().enumerate() {
        if place < scale.cut as usize {
            continue;
        }
        let doubleword = store.bytes().doubleword;
        let is_read = may_look_at(opened, concern, doubleword);
        if is_read {
            add_once(&mut doublewords, doubleword)?;
        }
        if is_read || is_among(&concern.owed, place) {
            key.push(u64::from(store.hart))?;
            key.push(store.store.address)?;
            key.push(store.store.width.bytes())?;
            key.push(store.store.value)?;
        }
    }
    doublewords.sort_unstable();
    for doubleword in &doublewords {
        let pages = opened.code.pages();
        key.push(*doubleword)?;
        key.push(opened.list.doubleword_at(pages, *doubleword, scale.cut))?;
    }
    Ok(key)
}
