//! The command that serves a debugger.
ghost use Rattle.std.specs.Prelude.{IfOk};
ghost use Rattle.debug_commands.specs.Debugged.{Dialogue, IsDebugged};

use command_line::Gdb;
use debug_commands::debug_command;
use host_io::{ReadSource, WriteSink};
use program_files::{CommandFailure, ExitStatus, World};
use std::io;
use std::sync::Wait;
use std::thread::Threads;

/// Serves a debugger that looks at the recording or the execution of a file, over standard input and output.
#[inline(never)]
pub(crate) fn serve_debugger<W: World, R: Threads + Wait + Sync>(
    rt: &HostRuntime,
    threads: &R,
    world: &W,
    asked: &Gdb<'_>,
) -> Result<ExitStatus, CommandFailure>
    ensures { IfOk result (λ status. (w : Dialogue) ×
        IsDebugged (W.files world.now) asked.now.recording.now status w) }
{
    let mut requests = ReadSource::new(rt.reader());
    let mut replies = WriteSink::new(io::writer(rt));
    let mut errors = WriteSink::new(rt.stderr());
    Ok(debug_command(
        threads,
        rt.alloc(),
        world,
        asked,
        &mut requests,
        &mut replies,
        &mut errors,
    )?)
}
