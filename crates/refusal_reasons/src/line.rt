use crate::refusal::Refusal;
use order_rules::OrderRule;
use round_schedule::Event;
use std::fmt;

/// A refusal as one line for people: each index is told as the number of a step of its hart, counted from 0.
#[derive(Clone, Copy)]
pub struct RefusalLine<'a> {
    refusal: Refusal,
    events: &'a [Event],
}

/// A step of a hart.
#[derive(Clone, Copy)]
struct StepOf {
    hart: u8,
    number: usize,
}

impl Refusal {
    /// The refusal as one line, where these are the events of what was done.
    pub fn line(self, events: &[Event]) -> RefusalLine<'_> {
        RefusalLine {
            refusal: self,
            events,
        }
    }
}

/// How many steps the hart of an event did before it.
fn step_at(events: &[Event], index: usize) -> StepOf {
    let hart = match events.get(index) {
        Some(event) => event.hart,
        None => 0,
    };
    let number = events
        .iter()
        .take(index)
        .filter(|event| event.hart == hart)
        .count();
    StepOf { hart, number }
}

impl fmt::Display for StepOf {
    fn fmt<W: fmt::Write>(&self, f: &mut fmt::Formatter<W>) -> fmt::Result {
        let number = self.number;
        let hart = self.hart;
        write!(f, "step {number} of hart {hart}")
    }
}

impl fmt::Display for RefusalLine<'_> {
    fn fmt<W: fmt::Write>(&self, f: &mut fmt::Formatter<W>) -> fmt::Result {
        match self.refusal {
            Refusal::NoOperation { position } => {
                write!(f, "entry {position} of the order is no memory operation")
            }
            Refusal::Twice { index } => {
                let step = step_at(self.events, index);
                write!(f, "the order has {step} twice")
            }
            Refusal::LeftOut { index } => {
                let step = step_at(self.events, index);
                write!(f, "the order leaves out {step}")
            }
            Refusal::OutOfOrder {
                rule,
                first,
                second,
            } => {
                let first = step_at(self.events, first);
                let second = step_at(self.events, second);
                write_turned(f, rule, first, second)
            }
            Refusal::WrongByte { load, address } => {
                let step = step_at(self.events, load);
                write!(
                    f,
                    "the byte at {address:016x} that {step} read is not the one that its source wrote"
                )
            }
            Refusal::NotAtomic {
                reserve,
                conditional,
            } => {
                let reserve = step_at(self.events, reserve);
                let conditional = step_at(self.events, conditional);
                write!(f, "another hart stores between {reserve} and {conditional}")
            }
        }
    }
}

fn write_turned<W: fmt::Write>(
    f: &mut fmt::Formatter<W>,
    rule: OrderRule,
    first: StepOf,
    second: StepOf,
) -> fmt::Result {
    let number = rule.number();
    let name = rule.name();
    let later = second.number;
    write!(
        f,
        "rule {number}, {name}: {first} comes before its step {later}, and the order has step {later} first"
    )
}
