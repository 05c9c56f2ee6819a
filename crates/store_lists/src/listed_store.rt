use crate::reserved::Reserved;
use crate::time::{ByteSources, Time};
use access_times::{Bytes, shift_of};
use pages::{OutOfMemory, Pages, Store, Width};
use std::alloc::Global;
use std::collections::BTreeMap;

/// A store to shared bytes, by the hart that does it.
#[derive(Clone, Copy, PartialEq, Eq)]
pub struct ListedStore {
    /// The hart.
    pub hart: u8,
    /// What it writes, cut to its width.
    pub store: Store,
}

impl ListedStore {
    /// Its bytes.
    #[inline]
    pub fn bytes(&self) -> Bytes {
        Bytes::of(self.store.address, self.store.width)
    }

    /// The byte that it writes at a place of its doubleword.
    #[inline]
    pub fn byte(&self, place: usize) -> u8 {
        byte_of(self.store.value, self.store.address, place)
    }
}

/// The byte at a place of a doubleword, of a number whose bytes stand from an address in it on.
#[inline]
pub fn byte_of(number: u64, address: u64, place: usize) -> u8 {
    let shift = ((place % 8) as u32)
        .wrapping_mul(8)
        .wrapping_sub(shift_of(address));
    (number.wrapping_shr(shift) % 256) as u8
}

/// A number that has a byte at a place of a doubleword, and 0 elsewhere; its bytes stand from an address in it on.
#[inline]
pub fn number_with(byte: u8, address: u64, place: usize) -> u64 {
    let shift = ((place % 8) as u32)
        .wrapping_mul(8)
        .wrapping_sub(shift_of(address));
    u64::from(byte).wrapping_shl(shift)
}

/// Whether a place of a doubleword is among some bytes.
#[inline]
pub fn has_place(mask: u8, place: usize) -> bool {
    place < 8 && mask >> (place as u32) & 1 == 1
}

/// The stores to shared bytes so far, in the order of global memory.
#[derive(Drop)]
pub struct StoreList {
    alloc: Global,
    stores: Vec<ListedStore>,
    /// Of each doubleword that one of them writes to, the places of these in the list.
    places: BTreeMap<u64, Vec<Time>>,
}

impl StoreList {
    /// No store.
    pub fn new(alloc: Global) -> StoreList {
        StoreList {
            alloc,
            stores: Vec::new(alloc),
            places: BTreeMap::new(alloc),
        }
    }

    /// How many there are: the time now.
    #[inline]
    pub fn now(&self) -> Time {
        (self.stores.len() as u64).min(u64::from(u32::MAX)) as u32
    }

    /// All of them.
    pub fn stores(&self) -> &[ListedStore] {
        self.stores.as_slice()
    }

    /// The one at a place.
    #[inline]
    pub fn get(&self, place: Time) -> Option<ListedStore> {
        self.stores.get(place as usize).copied()
    }

    /// The last one.
    pub fn last(&self) -> Option<ListedStore> {
        self.stores.last().copied()
    }

    /// Adds one.
    ///
    /// # Errors
    ///
    /// `OutOfMemory` alone.
    pub fn push(&mut self, store: ListedStore) -> Result<(), OutOfMemory> {
        let (place, doubleword) = (self.now(), store.bytes().doubleword);
        match self.places.get_mut(&doubleword) {
            Some(places) => places.push(place)?,
            None => {
                let places = vec![in self.alloc; place]?;
                self.places.insert(doubleword, places)?;
            }
        }
        self.stores.push(store)?;
        Ok(())
    }

    /// Takes the last one off.
    pub fn pop(&mut self) {
        let Some(store) = self.stores.pop() else {
            return;
        };
        let doubleword = store.bytes().doubleword;
        let is_empty = match self.places.get_mut(&doubleword) {
            Some(places) => {
                let _place = places.pop();
                places.is_empty()
            }
            None => false,
        };
        if is_empty {
            let _places = self.places.remove(&doubleword);
        }
    }

    /// The places of the stores to a doubleword.
    #[inline]
    pub fn places_at(&self, doubleword: u64) -> &[Time] {
        match self.places.get(&doubleword) {
            Some(places) => places.as_slice(),
            None => &[],
        }
    }

    /// The doublewords that are stored to, in rising order.
    ///
    /// # Errors
    ///
    /// `OutOfMemory` alone.
    pub fn doublewords(&self, alloc: Global) -> Result<Vec<u64>, OutOfMemory> {
        let mut doublewords = Vec::with_capacity(alloc, self.places.len())?;
        for doubleword in self.places.keys() {
            doublewords.push(*doubleword)?;
        }
        Ok(doublewords)
    }

    /// For each of some bytes the latest store before a time.
    pub fn sources(&self, bytes: Bytes, time: Time) -> ByteSources {
        let mut sources = [0; 8];
        for place in self.places_at(bytes.doubleword) {
            if *place >= time {
                break;
            }
            if let Some(store) = self.get(*place) {
                let mask = store.bytes().mask & bytes.mask;
                for k in 0..8 {
                    if has_place(mask, k) {
                        sources[k] = place.saturating_add(1);
                    }
                }
            }
        }
        sources
    }

    /// Whether another hart's store to the bytes of a reservation stands before a time, and behind what the LR read.
    pub fn has_foreign(&self, hart: u8, reserved: &Reserved, time: Time) -> bool {
        let bytes = reserved.bytes();
        for place in self.places_at(bytes.doubleword) {
            if *place >= time {
                break;
            }
            if let Some(store) = self.get(*place) {
                let mask = store.bytes().mask & bytes.mask;
                if store.hart != hart && is_behind(&reserved.sources, mask, *place) {
                    return true;
                }
            }
        }
        false
    }

    /// A doubleword of memory at a time.
    pub fn doubleword_at(&self, pages: &Pages, doubleword: u64, time: Time) -> u64 {
        let mut number = opening_doubleword(pages, doubleword);
        for place in self.places_at(doubleword) {
            if *place >= time {
                break;
            }
            if let Some(store) = self.get(*place) {
                number = under(number, &store);
            }
        }
        number
    }
}

/// Whether the store at a place stands behind the source of one of some bytes.
fn is_behind(sources: &ByteSources, mask: u8, place: Time) -> bool {
    for k in 0..8 {
        if has_place(mask, k) && place >= sources[k] {
            return true;
        }
    }
    false
}

/// A doubleword with a store laid over it.
fn under(number: u64, store: &ListedStore) -> u64 {
    let mut laid = number;
    let mask = store.bytes().mask;
    for k in 0..8 {
        if has_place(mask, k) {
            let kept = laid & (number_with(255, 0, k) ^ u64::MAX);
            laid = kept | number_with(store.byte(k), 0, k);
        }
    }
    laid
}

/// A doubleword as memory opened with it.
#[inline]
pub fn opening_doubleword(pages: &Pages, doubleword: u64) -> u64 {
    pages
        .read(doubleword.wrapping_mul(8), Width::W8)
        .unwrap_or(0)
}
