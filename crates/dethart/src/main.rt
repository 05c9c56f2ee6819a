//! Runs a guest program as the command line says, and prints the report or the order of its memory operations; records runs,
//! replays recordings, and asks them about the past; hunts for a guest's endings, draws runs, and checks executions.
#![tactic(auto)]

ghost use Rattle.std.specs.Prelude.{◌≡◌, ℕ, IfOk, List, map};
ghost use Rattle.std.specs.Process.{exit_status};
ghost use Rattle.dethart.specs.Answers.{EndsLine, EndsProgram, IsStatusOf};
ghost use Rattle.program_files.specs.Status.{status_number};
ghost use Rattle.program_files.specs.declared.exit_status.ExitStatus.{ExitStatus as Status};

mod commands;
mod debugging;
mod failure;
mod line;
mod refusal;
mod unfit;
mod unread;

use command_line::{Command, asked_by_options, parse_line, with_usage};
use commands::finish_command;
use failure::Failure;
use host_world::HostWorld;
use line::{answer_line, arguments, texts_of};
use program_files::ExitStatus;
use std::process::ExitCode;
use std::sync::Wait;
use std::thread::Threads;
use unfit::tell_unfit;
use unread::tell_unread;
use weak_commands::FenceSearches;

fn main(rt: HostRuntime) -> ExitCode {
    end(&rt, &rt, &mut HostWorld { rt: &rt })
}

/// Does what the command line says, and gives what the program ends with.
fn end<W: FenceSearches + Copy + Sync, R: Threads + Wait + Sync>(
    rt: &HostRuntime,
    threads: &R,
    world: &mut W,
) -> ExitCode
where
    W::Progress: Sync,
    ensures { (status : Status) × EndsProgram (W.files world.old) W.hunts W.fences status ×
        (exit_status result ≡ status_number status) }
{
    let status = status_of_line(rt, threads, world);
    ExitCode::from(status.number())
}

/// Does what the command line says, and gives the status that the program ends with.
fn status_of_line<W: FenceSearches + Copy + Sync, R: Threads + Wait + Sync>(
    rt: &HostRuntime,
    threads: &R,
    world: &mut W,
) -> ExitStatus
where
    W::Progress: Sync,
    ensures { EndsProgram (W.files world.old) W.hunts W.fences result }
{
    match start(rt, threads, world) {
        Ok(status) => status,
        Err(failure) => {
            // There is nobody left to tell where standard error takes nothing.
            let _unwritten = failure.print(rt);
            failure.status()
        }
    }
}

/// Does what the command line says, on the threads that `threads` starts.
fn start<W: FenceSearches + Copy + Sync, R: Threads + Wait + Sync>(
    rt: &HostRuntime,
    threads: &R,
    world: &mut W,
) -> Result<ExitStatus, Failure>
where
    W::Progress: Sync,
    ensures { IfOk result (λ status. (words : List (List ℕ)) ×
        EndsLine (W.files world.old) W.hunts W.fences words status) }
{
    // The first is the program's name.
    let arguments = arguments(rt)?;
    let words = texts_of(rt.alloc(), arguments.as_slice())?;
    obey_words(rt, threads, world, words.as_slice())
}

/// Does what the words of a line say.
fn obey_words<W: FenceSearches + Copy + Sync, R: Threads + Wait + Sync>(
    rt: &HostRuntime,
    threads: &R,
    world: &mut W,
    words: &[&str],
) -> Result<ExitStatus, Failure>
where
    W::Progress: Sync,
    ensures { IfOk result (EndsLine (W.files world.old) W.hunts W.fences
        (map (λ s. s.now) words.now)) }
{
    let words = asked_by_options(rt.alloc(), words)?;
    match parse_line(rt.alloc(), words.as_slice()) {
        Ok(command) => Ok(obey(rt, threads, world, &command)),
        Err(error) => answer_line(rt, with_usage(rt.alloc(), words.as_slice(), error)),
    }
}

/// Does what a command says.
fn obey<W: FenceSearches + Copy + Sync, R: Threads + Wait + Sync>(
    rt: &HostRuntime,
    threads: &R,
    world: &mut W,
    command: &Command<'_>,
) -> ExitStatus
where
    W::Progress: Sync,
    ensures { IsStatusOf (W.files world.old) W.hunts W.fences command.now result }
{
    let status = finish_command(rt, threads, world, command);
    // What refuses the command comes first.
    tell_unread(rt, command);
    tell_unfit(rt, command);
    status
}
