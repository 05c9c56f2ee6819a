ghost use Rattle.std.specs.Prelude.{IfOk};
ghost use Rattle.dethart.specs.Answers.{IsDoneBy, IsStatusOf};

use crate::debugging::serve_debugger;
use crate::refusal::finish;
use all_commands::{EndingsSearcher, all_command};
use command_line::Command;
use execution_commands::check_command;
use host_world::HostOutput;
use hunt_commands::{hunt_command, merge_command, plan_command, shrink_command};
use hunt_comparison::compare_command;
use past_commands::{replay_command, watch_command};
use program_files::{CommandFailure, ExitStatus, Output};
use run_commands::{migrate_command, order_command, record_command, run_command};
use std::sync::Wait;
use std::thread::Threads;
use view_commands::{draw_command, trace_command};
use weak_commands::{FenceSearches, WeakExecuter, execution_command, fences_command};

/// Does what a command says, and says no more on standard error than the command itself does.
pub(crate) fn finish_command<W: FenceSearches + Copy + Sync, R: Threads + Wait + Sync>(
    rt: &HostRuntime,
    threads: &R,
    world: &mut W,
    command: &Command<'_>,
) -> ExitStatus
where
    W::Progress: Sync,
    ensures { IsStatusOf (W.files world.old) W.hunts W.fences command.now result }
{
    match HostOutput::new(rt) {
        Ok(mut out) => {
            let answer = put_answer(rt, threads, world, command, &mut out);
            finish(rt, out.reader_is_gone, answer)
        }
        Err(error) => finish(rt, false, Err(CommandFailure::from(error))),
    }
}

/// Does what a command says, and prints what that is to print.
fn put_answer<W: FenceSearches + Copy + Sync, O: Output, R: Threads + Wait + Sync>(
    rt: &HostRuntime,
    threads: &R,
    world: &mut W,
    command: &Command<'_>,
    out: &mut O,
) -> Result<ExitStatus, CommandFailure>
where
    W::Progress: Sync,
    ensures { IfOk result (IsDoneBy (W.files world.old) W.hunts W.fences command.now) }
{
    let alloc = rt.alloc();
    match command {
        Command::Run(asked) => run_command(threads, alloc, world, asked, out),
        Command::Order(run) => order_command(threads, alloc, world, run, out),
        Command::Record(asked) => record_command(threads, alloc, world, asked),
        Command::Migrate(asked) => migrate_command(alloc, world, asked),
        Command::Replay(asked) => replay_command(threads, alloc, world, asked, out),
        Command::Watch(asked) => watch_command(threads, alloc, world, asked, out),
        Command::Gdb(asked) => serve_debugger(rt, threads, world, asked),
        Command::Hunt(asked) => hunt_command(threads, alloc, world, asked, out),
        Command::Fences(asked) => fences_command(threads, alloc, world, asked, out),
        Command::All(asked) => all_command(threads, alloc, world, &EndingsSearcher, asked, out),
        Command::Shrink(asked) => shrink_command(threads, alloc, world, asked, out),
        Command::Merge(asked) => merge_command(alloc, world, asked, out),
        Command::Compare(asked) => compare_command(alloc, world, asked, out),
        Command::Plan(asked) => plan_command(alloc, world, asked, out),
        Command::Draw(asked) => draw_command(threads, alloc, world, asked, out),
        Command::Trace(run) => trace_command(threads, alloc, world, run, out),
        Command::Execution(asked) => execution_command(
            threads,
            alloc,
            world,
            &WeakExecuter,
            asked,
            out,
        ),
        Command::Check(asked) => check_command(alloc, world, asked, out),
    }
}
