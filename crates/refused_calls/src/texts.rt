//! Calls that write a text.

use crate::calls::{Outcome, Refusal};
use crate::ending::Ending;
use crate::guest::REPORT;
use crate::recordings::EXITS;
use emulation::Report;
use host_io::{RunError, WriteSink};
use machine::Machine;
use recording::{Recording, read_recording, write_recording};
use std::alloc::Global;
use std::io::{self, Write};

/// How many bytes a page has room for.
const ROOM: usize = 1024;

/// A page, on which a text is written without any memory.
#[derive(Drop)]
struct Page {
    bytes: [u8; ROOM],
    length: usize,
}

impl Page {
    /// A page with nothing on it.
    fn new() -> Page {
        Page {
            bytes: [0; ROOM],
            length: 0,
        }
    }

    /// What is on it.
    fn text(&self) -> &[u8] {
        &self.bytes[..self.length.min(ROOM)]
    }
}

impl Write for Page {
    fn write(&mut self, bytes: &[u8]) -> io::Result<usize> {
        let start = self.length.min(ROOM);
        let count = bytes.len().min(ROOM - start);
        self.bytes[start..start + count].copy_from_slice(&bytes[..count]);
        self.length = start + count;
        Ok(count)
    }

    fn flush(&mut self) -> io::Result<()> {
        Ok(())
    }
}

/// What a call came to that wrote a text on a page, where this one is wanted: refused, it leaves a beginning of it.
fn outcome_of(answer: Result<(), RunError>, page: &Page, wanted: &[u8]) -> Option<Outcome> {
    match answer {
        Ok(()) => Some(Outcome::of(page.text() == wanted)),
        Err(error) if error.is_of_memory() && !wanted.starts_with(page.text()) => None,
        Err(error) => Some(Outcome::refused(&error)),
    }
}

/// Of two calls that wrote the same text, of which the second is made where the first was refused memory.
fn ending_of<C: Fn() -> Option<Outcome>>(call: &C) -> Ending
    requires { C.IsAlwaysCallable call.now }
{
    match call() {
        None => Ending::Changed,
        Some(Outcome::Refused) => match call() {
            Some(outcome) => Ending::second(outcome),
            None => Ending::Changed,
        },
        Some(outcome) => Ending::first(outcome),
    }
}

/// Writes the report of a machine.
pub(crate) fn report(alloc: Global, machine: &Machine) -> Ending {
    ending_of(&|| {
        let mut page = Page::new();
        let answer = machine.report(alloc, &mut WriteSink::new(&mut page));
        outcome_of(answer, &page, REPORT.as_bytes())
    })
}

/// Writes a recording that was read, or says what was refused before that.
pub(crate) fn try_write(alloc: Global) -> Result<Ending, RunError> {
    let Ok(recording) = read_recording(alloc, &EXITS) else {
        return Err(RunError::OutOfMemory);
    };
    Ok(write_twice(alloc, &recording))
}

/// Writes this one.
fn write_twice(alloc: Global, recording: &Recording) -> Ending {
    ending_of(&|| {
        let mut page = Page::new();
        let answer = write_recording(alloc, recording, &mut WriteSink::new(&mut page));
        outcome_of(answer, &page, &EXITS)
    })
}
