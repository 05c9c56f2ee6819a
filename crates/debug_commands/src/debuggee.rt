//! What a debugger looks at.
ghost use Rattle.std.specs.Prelude.{IfErr, IfOk};
ghost use Rattle.debug_commands.specs.Debuggees.{IsDebuggee, IsDebuggeeOf, IsRefusal, IsRefusedPast, IsRefusedText, IsRunOf, IsTextDebuggee, IsUnopened};

use execution_commands::read_execution_text;
use execution_scripts::Checked;
use execution_session::Opened;
use gdb_runs::Debugged;
use host_io::RunError;
use past_commands::{Past, read_past};
use program_files::{CommandFailure, World};
use recording::Recording;
use replayer::settings_of;
use std::alloc::Global;

/// What a debugger looks at.
#[derive(Drop)]
pub(crate) enum Debuggee {
    /// The run of a recording, before its first round.
    Run(Debugged),
    /// An execution that RVWMO allows.
    Execution(execution_moments::Past),
    /// What was found against an execution.
    Refused(Checked),
}

/// What a debugger looks at: the run of the recording that the file of a path holds, or the execution.
///
/// # Errors
///
/// `File` where it can't be read; `Unread` where it begins as neither, or is no recording; `NoExecution` where it is no execution. Then what
/// refuses the run: its image, its plan, and more rounds than can be looked at; or what refuses the execution's guest. And the refusal of
/// memory.
pub(crate) fn opened<W: World>(
    world: &W,
    alloc: Global,
    path: &str,
) -> Result<Debuggee, CommandFailure>
    ensures opens { IfOk result (IsDebuggee (W.files world.now) path.now) }
    ensures errors { IfErr result (IsUnopened (W.files world.now) path.now) }
{
    let past = read_past(world, alloc, path)?;
    opened_past(alloc, &past)
}

/// The run of a recording, or the execution that a text says.
fn opened_past(alloc: Global, past: &Past) -> Result<Debuggee, CommandFailure>
    ensures opens { IfOk result (IsDebuggeeOf past.now) }
    ensures errors { IfErr result (IsRefusedPast past.now) }
{
    match past {
        Past::Recording(recording) => Ok(Debuggee::Run(opened_run(alloc, recording)?)),
        Past::Execution(text) => opened_execution(alloc, text),
    }
}

/// The run of a recording, on one worker.
fn opened_run(alloc: Global, recording: &Recording) -> Result<Debugged, RunError>
    ensures opens { IfOk result (IsRunOf recording.now) }
    ensures errors { IfErr result (IsRefusal recording.now) }
{
    let settings = settings_of(recording, 1);
    gdb_session::open(alloc, recording.image(), recording.input(), &settings)
}

/// The execution that a text says, or what was found against it.
fn opened_execution(alloc: Global, text: &[u8]) -> Result<Debuggee, CommandFailure>
    ensures opens { IfOk result (IsTextDebuggee text.now) }
    ensures errors { IfErr result (IsRefusedText text.now) }
{
    let file = read_execution_text(alloc, text)?;
    match execution_session::open(alloc, &file)? {
        Opened::Past(past) => Ok(Debuggee::Execution(past)),
        Opened::Refused(checked) => Ok(Debuggee::Refused(checked)),
    }
}
