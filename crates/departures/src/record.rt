use crate::departure::Departure;
use execution::ScriptedStep;
use memory_order::Order;
use pages::OutOfMemory;
use round_schedule::Access;
use std::alloc::Global;

/// A memory operation that a hart did.
#[derive(Clone, Copy)]
pub struct Deed {
    /// The hart.
    pub hart: u8,
    /// The address of its instruction.
    pub pc: u64,
    /// What it did to memory.
    pub access: Access,
    /// The time before which it cannot be; of a store its time.
    pub earliest: u32,
    /// When it was done: a load read memory as it was at this time.
    pub at: u32,
    /// Of a store, an SC or an AMO the time that it has to be behind, by what comes before it in its hart's program; else 0.
    pub behind: u32,
    /// The index of its event among the events of all harts.
    pub event: usize,
}

/// Where in the global memory order the operations of an execution are put. A store always stands at its time.
#[derive(Clone, Copy)]
pub enum Placing {
    /// A load stands where it was done, so that just what departs is out of its hart's order.
    AsDone,
    /// The same, but a load is no later than the later loads of its hart that read old, as far as it can be.
    AsOld,
    /// A load stands where it can be at the earliest.
    Earliest,
}

/// Where a memory operation stands: behind the store of a time, or it is this store. Of operations with one time the earlier step
/// stands first.
#[derive(Clone, Copy, PartialEq, Eq, PartialOrd, Ord)]
struct OrderEntry {
    time: u32,
    is_load: bool,
    deed: usize,
}

/// What an execution did, for the checker of executions.
#[derive(Drop)]
pub struct Record {
    script: Vec<ScriptedStep>,
    deeds: Vec<Deed>,
    departures: Vec<Departure>,
    events: usize,
}

impl Record {
    /// Of an execution that did nothing.
    pub fn new(alloc: Global) -> Record {
        Record {
            script: Vec::new(alloc),
            deeds: Vec::new(alloc),
            departures: Vec::new(alloc),
            events: 0,
        }
    }

    /// A hart took a step.
    pub fn add_step(&mut self, step: ScriptedStep) -> Result<(), OutOfMemory> {
        self.script.push(step)?;
        Ok(())
    }

    /// The step left an event. Gives its index.
    pub fn add_event(&mut self) -> usize {
        let event = self.events;
        self.events = self.events.saturating_add(1);
        event
    }

    /// A memory operation was done. Gives its number.
    pub fn add_deed(&mut self, deed: Deed) -> Result<usize, OutOfMemory> {
        let number = self.deeds.len();
        self.deeds.push(deed)?;
        Ok(number)
    }

    /// The store of a deed has a time.
    pub fn set_time(&mut self, number: usize, time: u32) {
        if let Some(deed) = self.deeds.get_mut(number) {
            deed.earliest = time;
            deed.at = time;
        }
    }

    /// An operation departed from the order of its hart's program.
    pub fn add_departure(&mut self, departure: Departure) -> Result<(), OutOfMemory> {
        self.departures.push(departure)?;
        Ok(())
    }

    /// The steps, in the order in which they were taken.
    pub fn script(&self) -> &[ScriptedStep] {
        self.script.as_slice()
    }

    /// The memory operations, in the order in which their instructions were done.
    pub fn deeds(&self) -> &[Deed] {
        self.deeds.as_slice()
    }

    /// The departures that took effect.
    pub fn departures(&self) -> &[Departure] {
        self.departures.as_slice()
    }

    /// The global memory order, as indexes of events: a store stands at its time, a load as early as it can be.
    ///
    /// # Errors
    ///
    /// `OutOfMemory` alone.
    pub fn order(&self, alloc: Global) -> Result<Order, OutOfMemory> {
        self.order_by(alloc, Placing::Earliest)
    }

    /// A global memory order, as indexes of events.
    ///
    /// # Errors
    ///
    /// `OutOfMemory` alone.
    pub fn order_by(&self, alloc: Global, placing: Placing) -> Result<Order, OutOfMemory> {
        let mut order = Vec::with_capacity(alloc, self.deeds.len())?;
        for number in self.placed(alloc, placing)? {
            if let Some(deed) = self.deeds.get(number) {
                order.push(deed.event)?;
            }
        }
        Ok(Order(order))
    }

    /// A global memory order, as numbers of deeds.
    ///
    /// # Errors
    ///
    /// `OutOfMemory` alone.
    pub fn placed(&self, alloc: Global, placing: Placing) -> Result<Vec<usize>, OutOfMemory> {
        let mut entries = self.entries(alloc, placing)?;
        entries.sort_unstable();
        let mut numbers = Vec::with_capacity(alloc, entries.len())?;
        for entry in &entries {
            numbers.push(entry.deed)?;
        }
        Ok(numbers)
    }

    /// Where each operation stands, the last one first.
    fn entries(&self, alloc: Global, placing: Placing) -> Result<Vec<OrderEntry>, OutOfMemory> {
        // For each hart the time of the oldest of its later loads that read old.
        let mut oldest = vec![in alloc; u32::MAX; 256]?;
        let mut entries = Vec::with_capacity(alloc, self.deeds.len())?;
        for (number, deed) in self.deeds.iter().enumerate().rev() {
            let is_load = !deed.access.stores();
            let latest = oldest.get_mut(usize::from(deed.hart));
            let time = match (placing, latest) {
                (Placing::Earliest, _) | (_, None) => deed.earliest,
                (Placing::AsDone, _) => deed.at,
                (Placing::AsOld, Some(latest)) => {
                    if is_load {
                        *latest = (*latest).min(deed.at);
                    }
                    deed.earliest.max(deed.at.min(*latest))
                }
            };
            entries.push(OrderEntry {
                time,
                is_load,
                deed: number,
            })?;
        }
        Ok(entries)
    }
}
