use access_times::Bytes;
use pages::OutOfMemory;
use std::alloc::Global;
use std::collections::BTreeMap;

/// What the search doesn't do. Once it is met, there may be endings that it doesn't find.
#[derive(Clone, Copy, PartialEq, Eq, PartialOrd, Ord)]
pub enum Omission {
    /// A call whose number isn't known when it comes.
    LateCall,
    /// The call for the number of the round.
    RoundCall,
    /// Input that several harts read.
    SharedInput,
    /// More output than a console takes.
    FullConsole,
    /// A hart that can be in more states than are looked at.
    ManyStates,
}

/// Who touches a doubleword. Bit k of a mask stands for hart k.
#[derive(Clone, Copy)]
struct Touched {
    /// Who loads it, by a load or an LR.
    loaders: u64,
    /// Who reads it, by an AMO too.
    readers: u64,
    /// Who writes it.
    writers: u64,
    /// Whether it is shared: one writes it, and another one touches it.
    is_shared: bool,
}

/// How an access touches its doubleword.
#[derive(Clone, Copy, PartialEq, Eq)]
pub enum Touch {
    /// By a load or an LR.
    Load,
    /// By a store or an SC.
    Store,
    /// By an AMO.
    Exchange,
}

/// What is known of the whole search: who touches which doublewords, and so which are shared. It grows alone, and where it grows the
/// search begins anew.
#[derive(Drop)]
pub struct Sharing {
    alloc: Global,
    touched: BTreeMap<u64, Touched>,
    /// Which doublewords the load at an address reads, by hart.
    loaded_at: BTreeMap<(u8, u64), Vec<u64>>,
    /// Who reads input.
    input_readers: u64,
    omissions: Vec<Omission>,
    /// Whether it grew since that was last asked.
    grew: bool,
}

const UNTOUCHED: Touched = Touched {
    loaders: 0,
    readers: 0,
    writers: 0,
    is_shared: false,
};

/// The mask of a hart.
fn bit_of(hart: u8) -> u64 {
    1u64.wrapping_shl(u32::from(hart))
}

impl Sharing {
    /// Nothing is touched.
    pub fn new(alloc: Global) -> Sharing {
        Sharing {
            alloc,
            touched: BTreeMap::new(alloc),
            loaded_at: BTreeMap::new(alloc),
            input_readers: 0,
            omissions: Vec::new(alloc),
            grew: false,
        }
    }

    /// Whether it grew since the last call.
    pub fn take_growth(&mut self) -> bool {
        let grew = self.grew;
        self.grew = false;
        grew
    }

    /// Whether it grew.
    #[inline]
    pub fn grew(&self) -> bool {
        self.grew
    }

    /// What the search met that it doesn't do, in a fixed order.
    pub fn omissions(&self) -> &[Omission] {
        self.omissions.as_slice()
    }

    /// Something is met that the search doesn't do.
    ///
    /// # Errors
    ///
    /// `OutOfMemory` alone.
    pub fn omit(&mut self, omission: Omission) -> Result<(), OutOfMemory> {
        if !self.omissions.contains(&omission) {
            self.omissions.push(omission)?;
            self.omissions.sort_unstable();
        }
        Ok(())
    }

    fn at(&self, doubleword: u64) -> Touched {
        match self.touched.get(&doubleword) {
            Some(touched) => *touched,
            None => UNTOUCHED,
        }
    }

    /// Whether a doubleword is shared.
    #[inline]
    pub fn is_shared(&self, doubleword: u64) -> bool {
        self.at(doubleword).is_shared
    }

    /// Whether a hart loads it early, if it does so at all: by a load or an LR.
    pub fn loads(&self, hart: u8, doubleword: u64) -> bool {
        self.at(doubleword).loaders & bit_of(hart) != 0
    }

    /// Whether a hart reads it.
    pub fn reads(&self, hart: u8, doubleword: u64) -> bool {
        self.at(doubleword).readers & bit_of(hart) != 0
    }

    /// Whether a hart touches it.
    pub fn touches(&self, hart: u8, doubleword: u64) -> bool {
        let touched = self.at(doubleword);
        (touched.readers | touched.writers) & bit_of(hart) != 0
    }

    /// The doublewords that one hart alone touches, each with the hart, in a fixed order.
    ///
    /// # Errors
    ///
    /// `OutOfMemory` alone.
    pub fn touched_by_one(&self, alloc: Global) -> Result<Vec<(u64, u8)>, OutOfMemory> {
        let mut owned = Vec::new(alloc);
        for (doubleword, touched) in &self.touched {
            let all = touched.readers | touched.writers;
            if !touched.is_shared && all.count_ones() == 1 {
                owned.push((*doubleword, (all.trailing_zeros() % 64) as u8))?;
            }
        }
        Ok(owned)
    }

    /// How many doublewords are shared.
    pub fn count_shared(&self) -> u64 {
        let mut count = 0u64;
        for touched in self.touched.values() {
            if touched.is_shared {
                count = count.saturating_add(1);
            }
        }
        count
    }

    /// Counts a doubleword as shared, since the endings show it.
    ///
    /// # Errors
    ///
    /// `OutOfMemory` alone.
    pub fn share(&mut self, doubleword: u64) -> Result<(), OutOfMemory> {
        let touched = Touched {
            is_shared: true,
            ..self.at(doubleword)
        };
        self.touched.insert(doubleword, touched)?;
        Ok(())
    }

    /// A hart touches a doubleword.
    ///
    /// # Errors
    ///
    /// `OutOfMemory` alone.
    pub fn touch(&mut self, hart: u8, bytes: Bytes, touch: Touch) -> Result<(), OutOfMemory> {
        let (before, bit) = (self.at(bytes.doubleword), bit_of(hart));
        let mut after = before;
        if touch == Touch::Load {
            after.loaders |= bit;
        }
        if touch != Touch::Store {
            after.readers |= bit;
        }
        if touch != Touch::Load {
            after.writers |= bit;
        }
        let is_new = after.loaders != before.loaders
            || after.readers != before.readers
            || after.writers != before.writers;
        if is_new {
            let all = after.readers | after.writers;
            after.is_shared |= after.writers != 0 && all & all.wrapping_sub(1) != 0;
            self.grew |= after.is_shared;
            self.touched.insert(bytes.doubleword, after)?;
        }
        Ok(())
    }

    /// A hart's load at an address reads a doubleword.
    ///
    /// # Errors
    ///
    /// `OutOfMemory` alone.
    pub fn note_load(&mut self, hart: u8, pc: u64, bytes: Bytes) -> Result<(), OutOfMemory> {
        let doubleword = bytes.doubleword;
        let is_new = match self.loaded_at.get_mut(&(hart, pc)) {
            Some(doublewords) => add_once(doublewords, doubleword)?,
            None => {
                let doublewords = vec![in self.alloc; doubleword]?;
                self.loaded_at.insert((hart, pc), doublewords)?;
                true
            }
        };
        self.grew |= is_new && self.is_shared(doubleword);
        Ok(())
    }

    /// The doublewords that a hart's load at an address was seen to read.
    pub fn loaded_at(&self, hart: u8, pc: u64) -> &[u64] {
        match self.loaded_at.get(&(hart, pc)) {
            Some(doublewords) => doublewords.as_slice(),
            None => &[],
        }
    }

    /// A hart reads input.
    ///
    /// # Errors
    ///
    /// `OutOfMemory` alone.
    pub fn read_input(&mut self, hart: u8) -> Result<(), OutOfMemory> {
        self.input_readers |= bit_of(hart);
        if self.input_readers & self.input_readers.wrapping_sub(1) != 0 {
            self.omit(Omission::SharedInput)?;
        }
        Ok(())
    }
}

/// Adds a number to others, where it isn't among them. Answers whether it wasn't.
pub fn add_once(numbers: &mut Vec<u64>, number: u64) -> Result<bool, OutOfMemory> {
    if numbers.contains(&number) {
        return Ok(false);
    }
    numbers.push(number)?;
    Ok(true)
}
