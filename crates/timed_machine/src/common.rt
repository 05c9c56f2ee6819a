use crate::assumed::AssumedFence;
use access_times::{History, Memory, Promise};
use departures::{Deed, Departure, Draws, Listed, Record, Way};
use execution::ScriptedStep;
use pages::OutOfMemory;

/// What the harts have in common.
pub(crate) struct Common {
    pub(crate) memory: Memory,
    pub(crate) history: History,
    /// What departs, where nothing is listed.
    pub(crate) draws: Draws,
    /// What departs.
    pub(crate) listed: Listed,
    /// The store that comes early, if one is listed.
    pub(crate) promise: Option<Promise>,
    /// Which fences are assumed.
    pub(crate) fences: Vec<AssumedFence>,
    /// How many memory operations all harts have done.
    pub(crate) operations: u64,
    /// How many steps they have taken.
    pub(crate) steps: u64,
    /// How many stores they hold.
    pub(crate) held: u32,
    /// What was done, where it is wanted.
    pub(crate) record: Option<Record>,
}

// By hand, so that a proof has one step for it wherever one is dropped, in this crate and above.
impl Drop for Common {
    fn drop(self) {
        let Common {
            memory,
            history,
            draws: _,
            listed,
            promise: _,
            fences,
            operations: _,
            steps: _,
            held: _,
            record,
        } = self;
        drop(memory);
        drop(history);
        drop(listed);
        drop(fences);
        drop(record);
    }
}

impl Common {
    /// How many stores back a hart's load reads at a step, or `None` where it reads the newest.
    #[inline]
    pub(crate) fn old(&mut self, hart: u8, step: u64) -> Option<u32> {
        if self.listed.is_empty() {
            return self.draws.old();
        }
        match self.listed.at(hart, step) {
            Some(Way::Old(back)) => Some(back),
            _ => None,
        }
    }

    /// For how many operations of the other harts a hart's store is held at a step, or `None` where it goes to memory at once.
    #[inline]
    pub(crate) fn late(&mut self, hart: u8, step: u64) -> Option<u64> {
        if self.listed.is_empty() {
            return self.draws.late();
        }
        match self.listed.at(hart, step) {
            Some(Way::Late(operations)) => Some(operations),
            _ => None,
        }
    }

    /// Whether an early store is in memory, and its hart hasn't come to it.
    #[inline]
    pub(crate) fn is_promised(&self) -> bool {
        self.promise.is_some_and(|promise| promise.is_open())
    }

    /// A hart took a step.
    #[inline]
    pub(crate) fn note_step(&mut self, step: ScriptedStep) -> Result<(), OutOfMemory> {
        self.steps = self.steps.wrapping_add(1);
        match &mut self.record {
            Some(record) => record.add_step(step),
            None => Ok(()),
        }
    }

    /// The step left an event. Gives its place.
    #[inline]
    pub(crate) fn note_event(&mut self) -> usize {
        match &mut self.record {
            Some(record) => record.add_event(),
            None => 0,
        }
    }

    /// The step did a memory operation. Gives its number.
    #[inline]
    pub(crate) fn note_deed(&mut self, deed: Deed) -> Result<usize, OutOfMemory> {
        match &mut self.record {
            Some(record) => record.add_deed(deed),
            None => Ok(0),
        }
    }

    /// A store that was held is in memory.
    pub(crate) fn note_time(&mut self, deed: usize, time: u32) {
        if let Some(record) = &mut self.record {
            record.set_time(deed, time);
        }
    }

    /// An operation departed from the order of its hart's program.
    pub(crate) fn note_departure(&mut self, departure: Departure) -> Result<(), OutOfMemory> {
        match &mut self.record {
            Some(record) => record.add_departure(departure),
            None => Ok(()),
        }
    }
}
