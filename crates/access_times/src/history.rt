use crate::doubleword::Bytes;
use crate::paged_times::PagedTimes;
use pages::OutOfMemory;
use std::alloc::Global;

/// How many stores to a doubleword are looked at, from the newest one on.
const LOOK_BACK: u32 = 64;

/// A store that is in memory. The store of number k, counted from 1, has time k: memory at time t is memory after its first t
/// stores.
#[derive(Clone, Copy)]
pub(crate) struct MadeStore {
    /// Which hart made it.
    pub hart: u8,
    /// Whether it is neither an SC's nor an AMO's.
    pub is_plain: bool,
    /// Its bytes of its doubleword.
    pub mask: u8,
    /// The time that its address and its data depend on.
    pub depends: u32,
    /// The time of the store before it to its doubleword, 0 where there is none.
    pub previous: u32,
    /// The doubleword before it.
    pub before: u64,
}

/// What a load sees at a time.
#[derive(Clone, Copy)]
pub struct Sight {
    /// The doubleword.
    pub value: u64,
    /// Before which time the load cannot be, by what it reads.
    pub time: u32,
    /// The latest store to its bytes.
    pub latest: u32,
}

/// The stores that are in memory, so that memory as it was at an earlier time can be read.
#[derive(Drop)]
pub struct History {
    stores: Vec<MadeStore>,
    last: PagedTimes,
}

impl History {
    /// No store yet, to a memory of so many pages.
    pub fn new(alloc: Global, pages: u32) -> Result<History, OutOfMemory> {
        Ok(History {
            stores: Vec::new(alloc),
            last: PagedTimes::new(alloc, pages)?,
        })
    }

    /// The time now: how many stores there are.
    #[inline]
    pub fn now(&self) -> u32 {
        (self.stores.len() as u64).min(u64::from(u32::MAX)) as u32
    }

    /// The store of a time.
    #[inline]
    fn store(&self, time: u32) -> Option<MadeStore> {
        if time == 0 {
            return None;
        }
        self.stores.get(time as usize - 1).copied()
    }

    /// Adds a store to some bytes, whose doubleword held a value before it. Gives its time.
    ///
    /// # Errors
    ///
    /// `OutOfMemory`, also where there is no further time.
    pub fn add(&mut self, bytes: Bytes, before: u64, maker: Maker) -> Result<u32, OutOfMemory> {
        if self.stores.len() as u64 >= u64::from(u32::MAX) {
            return Err(OutOfMemory);
        }
        self.stores.push(MadeStore {
            hart: maker.hart,
            is_plain: maker.is_plain,
            mask: bytes.mask,
            depends: maker.depends,
            previous: self.last.get(bytes.doubleword),
            before,
        })?;
        let time = self.now();
        self.last.set(bytes.doubleword, time)?;
        Ok(time)
    }

    /// What a hart's load of some bytes sees at a time, where their doubleword holds a value now. What is not later than `known`
    /// is not looked for.
    ///
    /// Past the newest stores it is taken for granted that the load met the next one, which can only hold it back.
    #[inline]
    pub fn look(&self, hart: u8, bytes: Bytes, at: u32, known: u32, value: u64) -> Sight {
        let mut sight = Sight {
            value,
            time: 0,
            latest: 0,
        };
        let mut left = bytes.mask;
        let mut time = self.last.get(bytes.doubleword);
        for _ in 0..LOOK_BACK {
            if time <= known || left == 0 {
                return sight;
            }
            let Some(store) = self.store(time) else {
                return sight;
            };
            if time > at {
                sight.value = store.before;
            } else if store.mask & left != 0 {
                left &= store.mask ^ 0xff;
                sight.time = sight.time.max(reading_time(store, time, hart));
                sight.latest = sight.latest.max(time);
            }
            time = store.previous;
        }
        if time > known && left != 0 {
            sight.time = sight.time.max(time);
            sight.latest = sight.latest.max(time);
        }
        sight
    }

    /// The time before the `back`-th newest store to some bytes that is later than `floor`, or before the oldest such that is
    /// looked at.
    pub fn time_before(&self, bytes: Bytes, floor: u32, back: u32) -> Option<u32> {
        let mut found = None;
        let mut left = back;
        let mut time = self.last.get(bytes.doubleword);
        for _ in 0..LOOK_BACK {
            if time <= floor || left == 0 {
                return found;
            }
            let Some(store) = self.store(time) else {
                return found;
            };
            if store.mask & bytes.mask != 0 {
                found = Some(time - 1);
                left -= 1;
            }
            time = store.previous;
        }
        found
    }
}

/// Who makes a store, and how.
#[derive(Clone, Copy)]
pub struct Maker {
    /// The hart.
    pub hart: u8,
    /// Whether it is neither an SC's nor an AMO's.
    pub is_plain: bool,
    /// The time that its address and its data depend on.
    pub depends: u32,
}

/// Before which time a hart's load cannot be that reads from a store of a time. From a plain store of its own it may read before
/// that one is in memory.
fn reading_time(store: MadeStore, time: u32, hart: u8) -> u32 {
    if store.hart == hart && store.is_plain {
        store.depends
    } else {
        time
    }
}
