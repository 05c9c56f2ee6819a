//! From runs of harts to an execution, for its checker.
use execution::ScriptedStep;
use memory_order::Order;
use pages::OutOfMemory;
use run_states::{EndedRun, RunEnd};
use std::alloc::Global;
use store_lists::{Deed, Deeds, Time};

/// An execution that was found: its steps, hart after hart, and a global memory order of its operations, as indexes of events.
#[derive(Drop)]
pub struct FoundExecution {
    /// The steps.
    pub script: Vec<ScriptedStep>,
    /// The order.
    pub order: Order,
}

/// Where an operation stands in the global memory order: behind so many stores of the list, where one of the list is the last of these
/// with its time. Of operations between the same stores those of one hart stand in its program's order.
#[derive(Clone, Copy, PartialEq, Eq, PartialOrd, Ord)]
struct OrderEntry {
    time: Time,
    is_listed: bool,
    hart: u8,
    event: usize,
}

/// The execution under way.
#[derive(Drop)]
struct Told {
    script: Vec<ScriptedStep>,
    entries: Vec<OrderEntry>,
    /// How many events there are.
    events: usize,
}

/// The execution in which each hart does a run, in hart order.
///
/// # Errors
///
/// `OutOfMemory` alone.
pub(crate) fn execution_of(
    alloc: Global,
    deeds: &Deeds,
    runs: &[&EndedRun],
) -> Result<FoundExecution, OutOfMemory> {
    let mut told = Told {
        script: Vec::new(alloc),
        entries: Vec::new(alloc),
        events: 0,
    };
    for (hart, run) in runs.iter().enumerate() {
        let done = deeds.of_run(alloc, run.last_deed)?;
        tell_run(&mut told, (hart % 256) as u8, run, &done)?;
    }
    let Told {
        script,
        entries,
        events: _,
    } = told;
    Ok(FoundExecution {
        script,
        order: order_of(alloc, entries)?,
    })
}

/// The steps of a run.
fn tell_run(told: &mut Told, hart: u8, run: &EndedRun, done: &[Deed]) -> Result<(), OutOfMemory> {
    let mut next = 0usize;
    for step in 0..run.steps {
        let deed = match done.get(next) {
            Some(deed) if deed.step == step => Some(*deed),
            _ => None,
        };
        if deed.is_some() {
            next = next.saturating_add(1);
        }
        tell_step(told, hart, deed)?;
        told.events = told.events.saturating_add(1);
    }
    match run.end {
        RunEnd::Stopped(_) => tell_step(told, hart, None),
        RunEnd::Waits(_) => Ok(()),
    }
}

/// One step, with what it does to memory.
fn tell_step(told: &mut Told, hart: u8, deed: Option<Deed>) -> Result<(), OutOfMemory> {
    let mut step = ScriptedStep {
        hart,
        round: 0,
        number: None,
        holds: false,
    };
    if let Some(deed) = deed {
        step.number = deed.number;
        step.holds = deed.holds;
        told.entries.push(OrderEntry {
            time: if deed.is_listed {
                deed.time.saturating_sub(1)
            } else {
                deed.time
            },
            is_listed: deed.is_listed,
            hart,
            event: told.events,
        })?;
    }
    told.script.push(step)?;
    Ok(())
}

/// The global memory order.
fn order_of(alloc: Global, entries: Vec<OrderEntry>) -> Result<Order, OutOfMemory> {
    let mut sorted = entries;
    sorted.sort_unstable();
    let mut order = Vec::with_capacity(alloc, sorted.len())?;
    for entry in &sorted {
        order.push(entry.event)?;
    }
    Ok(Order(order))
}
