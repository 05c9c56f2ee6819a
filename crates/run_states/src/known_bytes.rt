use access_times::Bytes;
use pages::OutOfMemory;
use store_lists::{ByteSources, LATER, Time, byte_of, has_place};

/// What a hart knows of a byte.
#[derive(Clone, Copy, PartialEq, Eq)]
pub struct KnownByte {
    /// Whether the hart has stored to it: then the next four are of its last store in program order. Of shared bytes only plain stores
    /// are kept here.
    pub is_own: bool,
    /// Whether that is an AMO's or an SC's.
    pub is_exclusive: bool,
    /// What it wrote.
    pub value: u8,
    /// Its place in the list plus one, or its time where the byte is private.
    pub place: Time,
    /// What its address and its data depend on.
    pub depends: Time,
    /// The latest of the hart's operations at the byte.
    pub last: Time,
    /// The latest source that a load of it had since the hart's last plain store to it.
    pub seen: Time,
}

/// What a hart knows of the bytes of a doubleword.
#[derive(Clone, Copy, PartialEq, Eq)]
pub struct KnownDoubleword {
    /// The number of the doubleword: its address divided by 8.
    pub doubleword: u64,
    /// Its bytes.
    pub bytes: [KnownByte; 8],
}

/// A byte that the hart hasn't touched.
const UNTOUCHED: KnownByte = KnownByte {
    is_own: false,
    is_exclusive: false,
    value: 0,
    place: 0,
    depends: 0,
    last: 0,
    seen: 0,
};

/// A store that a hart did.
#[derive(Clone, Copy)]
pub struct OwnStore {
    /// The address of its first byte.
    pub address: u64,
    /// Its bytes.
    pub bytes: Bytes,
    /// The number that it wrote; 0 where that isn't known.
    pub value: u64,
    /// Its place in the list plus one, or its time where the bytes are private.
    pub at: Time,
    /// What its address and its data depend on.
    pub depends: Time,
    /// Whether it is an AMO's or an SC's.
    pub is_exclusive: bool,
}

impl KnownDoubleword {
    /// One that the hart hasn't touched.
    pub fn untouched(doubleword: u64) -> KnownDoubleword {
        KnownDoubleword {
            doubleword,
            bytes: [UNTOUCHED; 8],
        }
    }

    /// The hart loads some of its bytes at a time, from these sources. Of private bytes no source is kept.
    pub fn load(&mut self, bytes: Bytes, time: Time, sources: Option<ByteSources>) {
        for k in 0..8 {
            if has_place(bytes.mask, k) {
                self.bytes[k].last = self.bytes[k].last.max(time);
                if let Some(sources) = sources {
                    if time != LATER {
                        self.bytes[k].seen = sources[k];
                    }
                }
            }
        }
    }

    /// The hart stores to some of its bytes, which it shares with others.
    pub fn store_shared(&mut self, store: &OwnStore) {
        for k in 0..8 {
            if has_place(store.bytes.mask, k) {
                let last = self.bytes[k].last.max(store.at);
                self.bytes[k] = if store.is_exclusive {
                    KnownByte {
                        last,
                        seen: store.at,
                        ..self.bytes[k]
                    }
                } else {
                    KnownByte {
                        last,
                        seen: 0,
                        ..stored(store, k)
                    }
                };
            }
        }
    }

    /// The hart stores to some of its bytes, which no other hart touches.
    pub fn store_private(&mut self, store: &OwnStore) {
        for k in 0..8 {
            if has_place(store.bytes.mask, k) {
                self.bytes[k] = KnownByte {
                    seen: self.bytes[k].seen,
                    ..stored(store, k)
                };
            }
        }
    }
}

/// A byte that a hart stored to.
fn stored(store: &OwnStore, place: usize) -> KnownByte {
    KnownByte {
        is_own: true,
        is_exclusive: store.is_exclusive,
        value: if store.depends == LATER {
            0
        } else {
            byte_of(store.value, store.address, place)
        },
        place: store.at,
        depends: store.depends,
        last: store.at,
        seen: 0,
    }
}

/// What a hart knows of memory: of each doubleword that it touched, in rising order.
#[derive(Drop)]
pub struct KnownBytes {
    doublewords: Vec<KnownDoubleword>,
}

impl KnownBytes {
    /// Of a hart that has touched none.
    pub fn new(doublewords: Vec<KnownDoubleword>) -> KnownBytes {
        KnownBytes { doublewords }
    }

    /// The same once more.
    ///
    /// # Errors
    ///
    /// `OutOfMemory` alone.
    pub fn copy(&self) -> Result<KnownBytes, OutOfMemory> {
        let alloc = *self.doublewords.allocator();
        Ok(KnownBytes {
            doublewords: Vec::from_slice(alloc, &self.doublewords)?,
        })
    }

    /// The doublewords that it touched, in rising order.
    #[inline]
    pub fn doublewords(&self) -> &[KnownDoubleword] {
        self.doublewords.as_slice()
    }

    /// Where a doubleword stands, or has to be put.
    fn find(&self, doubleword: u64) -> Result<usize, usize> {
        let (mut low, mut high) = (0usize, self.doublewords.len());
        for _ in 0..64 {
            if low >= high {
                break;
            }
            let middle = low.saturating_add(high) / 2;
            match self.doublewords.get(middle) {
                Some(known) if known.doubleword == doubleword => return Ok(middle),
                Some(known) if known.doubleword < doubleword => low = middle.saturating_add(1),
                _ => high = middle,
            }
        }
        Err(low)
    }

    /// What it knows of a doubleword.
    pub fn at(&self, doubleword: u64) -> KnownDoubleword {
        match self.find(doubleword) {
            Ok(index) => match self.doublewords.get(index) {
                Some(known) => *known,
                None => KnownDoubleword::untouched(doubleword),
            },
            Err(_) => KnownDoubleword::untouched(doubleword),
        }
    }

    /// What it knows of a doubleword from now on.
    ///
    /// # Errors
    ///
    /// `OutOfMemory` alone.
    pub fn set(&mut self, known: KnownDoubleword) -> Result<(), OutOfMemory> {
        match self.find(known.doubleword) {
            Ok(index) => {
                if let Some(there) = self.doublewords.get_mut(index) {
                    *there = known;
                }
            }
            Err(index) => {
                if index <= self.doublewords.len() {
                    self.doublewords.insert(index, known)?;
                }
            }
        }
        Ok(())
    }
}
