//! Makes each public call of the libraries once, and once more where it was refused memory: what has to stand then stands as
//! it was, and the second call has the whole outcome. A word names the one trial that is made. The script checks/refusals
//! runs it again and again, with another request refused each time.
#![tactic(auto)]

mod calls;
mod consoles;
mod ending;
mod guest;
mod loading;
mod lone;
mod loops;
mod machines;
mod memory;
mod past;
mod recordings;
mod rounds;
mod runs;
mod stage;
mod steps;
mod texts;
mod traces;
mod trial;

use ending::Ending;
use host_io::RunError;
use std::process::ExitCode;
use std::sync::Wait;
use std::thread::Threads;
use std::{env, io};
use trial::{TRIALS, Trial};

fn main(rt: HostRuntime) -> ExitCode {
    match start(&rt, &rt) {
        Ok(true) => ExitCode::SUCCESS,
        // There is nobody left to tell where standard output takes nothing.
        Ok(false) | Err(_) => ExitCode::FAILURE,
    }
}

/// Makes the trial that the first word names, or all where there is none, and answers whether each ended well.
fn start<R: Threads + Wait + Sync>(rt: &HostRuntime, threads: &R) -> io::Result<bool> {
    match asked_by(rt) {
        Ok(Asked::All) => try_all(rt, threads),
        Ok(Asked::One(trial)) => tell(rt, trial.ending(threads, rt.alloc())),
        Ok(Asked::Unknown) => Ok(false),
        Err(error) => tell(rt, Ending::before(error)),
    }
}

/// Prints what a trial came to, and answers whether it ended well.
fn tell(rt: &HostRuntime, ending: Ending) -> io::Result<bool> {
    println!(rt; "{ending}")?;
    Ok(ending.is_well())
}

/// What the program is asked to do.
#[derive(Clone, Copy)]
enum Asked {
    /// Each trial in turn.
    All,
    /// This one.
    One(Trial),
    /// A trial that there isn't.
    Unknown,
}

/// What the first word of the command line asks for.
fn asked_by(rt: &HostRuntime) -> Result<Asked, RunError> {
    let Ok(mut arguments) = env::args(rt) else {
        return Err(RunError::OutOfMemory);
    };
    let _name = arguments.next();
    Ok(match arguments.next() {
        Some(word) => asked_in(word.as_str()),
        None => Asked::All,
    })
}

/// What a word asks for.
fn asked_in(word: &str) -> Asked {
    match Trial::named(word) {
        Some(trial) => Asked::One(trial),
        None => Asked::Unknown,
    }
}

/// Makes each trial, prints what it came to, and answers whether all ended well.
fn try_all<R: Threads + Wait + Sync>(rt: &HostRuntime, threads: &R) -> io::Result<bool> {
    let mut are_well = true;
    for (name, trial) in &TRIALS {
        let ending = trial.ending(threads, rt.alloc());
        println!(rt; "{name}: {ending}")?;
        are_well = are_well && ending.is_well();
    }
    Ok(are_well)
}
