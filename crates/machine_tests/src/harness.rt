//! What the tests have in common.

use emulation::Report;
use host_io::{RunError, WriteSink};
use machine::{Format, Machine, Settings, prepare};
use pages::OutOfMemory;
use std::alloc::Global;

/// The flat image of these words.
pub(crate) fn flat(alloc: Global, words: &[u32]) -> Result<Vec<u8>, OutOfMemory> {
    let mut image = Vec::new(alloc);
    for word in words {
        image.extend_from_slice(&word.to_le_bytes())?;
    }
    Ok(image)
}

/// One round of two harts by a flat image on one page, each with a quota of 4, with one worker and a budget of 1.
pub(crate) const ASKED: Settings<'static> = Settings {
    format: Format::Flat,
    harts: 2,
    pages: 1,
    rounds: 1,
    workers: 1,
    budget: 1,
    plan: b"4\n",
};

/// What a trial comes to on the machine of these words, without input. It alone has the machine, and the trial borrows it: what
/// drops it is checked once.
pub(crate) fn on_machine<T, F>(
    alloc: Global,
    words: &[u32],
    asked: &Settings<'_>,
    trial: F,
) -> Result<T, RunError>
where
    T: Drop,
    F: FnOnce(&mut Machine) -> Result<T, RunError> + Drop,
    requires { F.IsAlwaysCallable trial }
{
    let image = flat(alloc, words)?;
    let mut machine = prepare(alloc, &image, &[], asked)?;
    trial(&mut machine)
}

/// The report of a machine.
pub(crate) fn text_of(alloc: Global, machine: &Machine) -> Result<Vec<u8>, RunError> {
    let mut text = Vec::new(alloc);
    machine.report(alloc, &mut WriteSink::new(&mut text))?;
    Ok(text)
}
