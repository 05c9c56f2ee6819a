use round_planner::draw;

/// One operation in so many departs. The longest holds are among the same numbers.
const RATES: [u64; 9] = [2, 4, 8, 16, 32, 64, 128, 256, 512];

/// How old a load may read at most, in stores to its bytes.
const MOST_BACK: u64 = 8;

/// One number in so many has a store come early, where one can.
const EARLY_RATE: u32 = 5;

/// The position of its stream from which on it is drawn which store that is: past all other draws.
const EARLY_POSITION: u64 = 1 << 62;

/// The numbers of a stream, one after another.
#[derive(Clone, Copy)]
pub struct Stream {
    key: u64,
    position: u64,
}

impl Stream {
    /// The next number.
    #[inline]
    pub fn next(&mut self) -> u64 {
        let number = draw(self.key, self.position % 0x8000_0000_0000_0000);
        self.position = self.position.wrapping_add(1);
        number
    }
}

/// Draws at which operations an execution departs from the order of its harts' programs: numbers out of a stream.
#[derive(Clone, Copy)]
pub struct Draws {
    stream: Stream,
    /// One load in so many reads old; 0: none does.
    old_rate: u64,
    /// One store in so many is held; 0: none is.
    late_rate: u64,
    /// For how many operations of the other harts a store is held at most.
    longest: u64,
    /// Which hart begins a round, modulo the number of harts.
    first: u64,
}

impl Draws {
    /// No departures.
    pub fn none() -> Draws {
        Draws {
            stream: Stream {
                key: 0,
                position: 0,
            },
            old_rate: 0,
            late_rate: 0,
            longest: 1,
            first: 0,
        }
    }

    /// The departures of an execution, by its number and a seed: one load in 2, 4, .. or 512 reads old, one store in as many is
    /// held, for 2, 4, .. or 512 operations of others at most. In a third of the numbers no load reads old, in a third no store
    /// is held. It is drawn too which hart begins each round.
    pub fn of_number(seed: u64, number: u32) -> Draws {
        let stream = draw(seed, u64::from(number));
        let kinds = draw(stream, 0) % 3;
        let old_rate = RATES[(draw(stream, 1) % 9) as usize];
        let late_rate = RATES[(draw(stream, 2) % 9) as usize];
        Draws {
            stream: Stream {
                key: stream,
                position: 5,
            },
            old_rate: if kinds == 1 { 0 } else { old_rate },
            late_rate: if kinds == 2 { 0 } else { late_rate },
            longest: RATES[(draw(stream, 3) % 9) as usize],
            first: draw(stream, 4),
        }
    }

    /// The same executions without departures.
    pub fn without_departures(self) -> Draws {
        Draws {
            old_rate: 0,
            late_rate: 0,
            ..self
        }
    }

    /// What says which store comes early in the execution of a number, where one is to: in each fifth number, from 4 on.
    pub fn early(seed: u64, number: u32) -> Option<Stream> {
        if number % EARLY_RATE != EARLY_RATE - 1 {
            return None;
        }
        Some(Stream {
            key: draw(seed, u64::from(number)),
            position: EARLY_POSITION,
        })
    }

    /// Which hart begins a round, modulo the number of harts.
    pub fn first(&self) -> u64 {
        self.first
    }

    /// How many stores back the next load reads, or `None` where it reads the newest.
    #[inline]
    pub fn old(&mut self) -> Option<u32> {
        let rate = self.old_rate;
        if rate == 0 {
            return None;
        }
        let number = self.stream.next();
        if number % rate != 0 {
            return None;
        }
        let more = number / rate;
        if more % 2 == 0 {
            return Some(1);
        }
        Some((1 + more / 2 % MOST_BACK) as u32)
    }

    /// For how many operations of the other harts the next store is held, or `None` where it goes to memory at once.
    #[inline]
    pub fn late(&mut self) -> Option<u64> {
        let rate = self.late_rate;
        if rate == 0 {
            return None;
        }
        let number = self.stream.next();
        if number % rate != 0 {
            return None;
        }
        Some(1 + number / rate % self.longest.max(1))
    }
}
