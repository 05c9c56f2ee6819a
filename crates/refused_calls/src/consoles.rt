//! Copies of a console with input, of which a byte was taken, and output.

use crate::calls::Outcome;
use serial_phase::Console;
use std::alloc::Global;

/// The copy of such a console, which stays as it is.
pub(crate) fn console_copy(alloc: Global) -> Outcome {
    let Ok(input) = Vec::from_slice(alloc, b"in") else {
        return Outcome::RefusedBefore;
    };
    let mut console = Console::new(alloc, input);
    copy_of_used(alloc, &mut console)
}

/// Copies this one after both.
fn copy_of_used(alloc: Global, console: &mut Console) -> Outcome {
    if console.reserve(1).is_err() {
        return Outcome::RefusedBefore;
    }
    let _answer = console.put(0x41);
    let _taken = console.get();
    match console.copy(alloc) {
        Ok(copy) => Outcome::of(is_used(console) && is_used(&copy)),
        Err(error) => Outcome::refused(&error),
    }
}

/// Whether a console has the input and the output of the trial.
fn is_used(console: &Console) -> bool {
    console.input.as_slice() == b"in".as_slice()
        && console.place == 1
        && console.output() == b"A".as_slice()
}
