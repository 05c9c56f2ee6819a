//! Programs that weren't built for the harts that there are.

use command_line::{Command, Program};
use host_world::HostWorld;
use program_files::{World, tell_of_flags};
use std::fs;

/// Says on standard error where the flags of the ELF file that a command ran say that it was built for more than a hart has. It is no
/// failure where that can't be read or written.
pub(crate) fn tell_unfit(rt: &HostRuntime, command: &Command<'_>) {
    let Some(program) = program_of(command) else {
        return;
    };
    // What is no plain file, as a pipe, is read once.
    let is_plain = fs::metadata(rt, program.image).is_ok_and(|found| found.is_file());
    if program.flat || !is_plain {
        return;
    }
    let world = HostWorld { rt };
    if let Ok(beginning) = world.read_beginning(program.image, 52) {
        tell_of_flags(&world, program.image, &beginning);
    }
}

/// The program that a command runs.
fn program_of<'a>(command: &'a Command<'_>) -> Option<&'a Program<'a>> {
    match command {
        Command::Run(asked) => Some(&asked.run.program),
        Command::Order(run) | Command::Trace(run) => Some(&run.program),
        Command::Record(asked) => Some(&asked.run.program),
        Command::Draw(asked) => Some(&asked.run.program),
        Command::Execution(asked) => Some(&asked.run.program),
        Command::Hunt(asked) => Some(&asked.search.program),
        Command::Shrink(asked) => Some(&asked.search.program),
        Command::Fences(asked) => Some(&asked.search.program),
        Command::All(asked) => Some(&asked.search.program),
        _ => None,
    }
}
