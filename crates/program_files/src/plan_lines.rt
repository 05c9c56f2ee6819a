//! Which line of a plan's text is bad, and why.

use round_planner::{Plan, PlanError};
use round_schedule::MOST_HARTS;
use std::alloc::Global;
use std::fmt::{self, Display, Formatter, Write};
use thiserror::Error;

/// The first bad line of a plan.
#[derive(Clone, Copy, Drop)]
pub struct BadLine {
    /// Its number, from 1 on.
    pub number: usize,
    /// What is wrong with it, as far as that can be told.
    pub fault: LineFault,
}

/// What is often wrong with a line of a plan.
#[derive(Clone, Copy, Debug, PartialEq, Eq, Error)]
pub enum LineFault {
    /// It is the last one, and has no end.
    #[error("has no line feed at its end")]
    NoLineFeed,
    /// It ends in two bytes, as lines do that Windows writes.
    #[error("ends in a carriage return and a line feed")]
    CarriageReturn,
    /// It has a space where no number is before it or after it, or a tab.
    #[error("has a space or a tab where none belongs")]
    Blank,
    /// There is nothing in it.
    #[error("is empty")]
    Empty,
    /// Anything else.
    #[error("is the first such line")]
    Other,
}

impl Display for BadLine {
    fn fmt<W: Write>(&self, f: &mut Formatter<W>) -> Result<(), fmt::Error> {
        let BadLine { number, fault } = self;
        write!(f, "line {number} {fault}")
    }
}

/// The first line of a plan's text for so many harts against which the cause stands.
pub(crate) fn bad_line(
    alloc: Global,
    text: &[u8],
    harts: u32,
    cause: PlanError,
) -> Option<BadLine> {
    let lines = text.split_inclusive(|byte| *byte == b'\n');
    for (index, line) in lines.enumerate() {
        if refuses(alloc, line, harts, cause) {
            return Some(BadLine {
                number: index.saturating_add(1),
                fault: fault_of(line),
            });
        }
    }
    None
}

/// Whether a line alone is refused for this cause.
fn refuses(alloc: Global, line: &[u8], harts: u32, cause: PlanError) -> bool {
    harts >= 1 && harts <= MOST_HARTS && Plan::parse(alloc, line, harts).err() == Some(cause)
}

/// What is wrong with a line.
fn fault_of(line: &[u8]) -> LineFault {
    let Some(row) = line.strip_suffix(b"\n") else {
        return LineFault::NoLineFeed;
    };
    let is_blank = |byte: &u8| *byte == b' ' || *byte == b'\t';
    if row.is_empty() {
        LineFault::Empty
    } else if row.ends_with(b"\r") {
        LineFault::CarriageReturn
    } else if row.first().is_some_and(is_blank)
        || row.last().is_some_and(is_blank)
        || row.contains(&b'\t')
        || row.windows(2).any(|pair| pair == b"  ".as_slice())
    {
        LineFault::Blank
    } else {
        LineFault::Other
    }
}
