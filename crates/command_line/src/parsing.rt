//! What the words of a command line say.
ghost use Rattle.std.specs.Prelude.{◌≡◌, IfOk, Some, map};
ghost use Rattle.clap.specs.Words.{FailsBy, found_of, kind_of, rows_of, subcommand_of};
ghost use Rattle.command_options.specs.Options.{dethart_app};
ghost use Rattle.command_line.specs.Names.{IsSubcommand};
ghost use Rattle.command_line.specs.Faults.{line_fault, word_fault};
ghost use Rattle.command_line.specs.Reading.{HoldsLine, HoldsNamed};

use crate::contradictions::contradiction;
use crate::readers::{
    all_of, check_of, compare_of, draw_of, execution_of, fences_of, gdb_of, hunt_of, merge_of,
    migrate_of, plan_of, print_of, record_of, replay_of, run_of, shrink_of, watch_of,
};
use crate::settings::Command;
use crate::words::bad_word;
use clap::error::ErrorKind;
use clap::{ArgMatches, Error};
use command_options::{command_for, subcommand_named};
use std::alloc::{AllocError, Global};

/// Reads the words of a command line, of which the first is the program's name.
///
/// An error has `clap`'s text for the user, and is also what asks for help.
pub fn parse_line<'a>(alloc: Global, words: &'a [&'a str]) -> Result<Command<'a>, Error>
    ensures reads { IfOk result (HoldsLine (subcommand_of dethart_app (map (λ s.
        s.now) words.entry.now))) }
    ensures fails { FailsBy (line_fault (map (λ s. s.now) words.entry.now)) result }
{
    let mut command = command_for(alloc, words)?;
    let matches = command.try_get_matches_from_mut(words)?;
    // `clap` refuses a line without a subcommand.
    let Some((name, found)) = matches.subcommand() else {
        unreachable!()
    };
    subcommand_of(alloc, name, found)
}

/// What the matches of the subcommand of this name say, or what is wrong with one of their words.
fn subcommand_of<'a>(
    alloc: Global,
    name: &str,
    matches: &ArgMatches<'a>,
) -> Result<Command<'a>, Error>
    requires known { IsSubcommand name.now }
    ensures reads { IfOk result (HoldsNamed name.now (rows_of (found_of matches.now))) }
    ensures fails { FailsBy (word_fault (Some (name.now, rows_of (found_of matches.now)))) result }
{
    if let Some(text) = bad_word(name, matches) {
        return Err(error_of(alloc, name, ErrorKind::ValueValidation, text)?);
    }
    if let Some(text) = contradiction(matches) {
        return Err(error_of(alloc, name, ErrorKind::ArgumentConflict, text)?);
    }
    Ok(command_of(alloc, name, matches)?)
}

/// An error of a line of the subcommand of this name, with the usage of that.
pub(crate) fn error_of(
    alloc: Global,
    name: &str,
    kind: ErrorKind,
    text: &str,
) -> Result<Error, AllocError>
    ensures { IfOk result (λ error. kind_of error ≡ kind) }
{
    let program = format!(in alloc; "dethart {name}")?;
    let mut command = subcommand_named(alloc, name)?.bin_name(program.as_str())?;
    command.error(kind, text)
}

/// What the matches of the subcommand of this name say.
fn command_of<'a>(
    alloc: Global,
    name: &str,
    matches: &ArgMatches<'a>,
) -> Result<Command<'a>, AllocError>
    requires known { IsSubcommand name.now }
    ensures { IfOk result (HoldsNamed name.now (rows_of (found_of matches.now))) }
{
    Ok(match name {
        "run" => Command::Run(print_of(matches)),
        "order" => Command::Order(run_of(matches)),
        "record" => Command::Record(record_of(matches)),
        "replay" => Command::Replay(replay_of(alloc, matches)?),
        "watch" => Command::Watch(watch_of(alloc, matches)?),
        "migrate" => Command::Migrate(migrate_of(matches)),
        "gdb" => Command::Gdb(gdb_of(matches)),
        "hunt" => Command::Hunt(hunt_of(alloc, matches)?),
        "shrink" => Command::Shrink(shrink_of(alloc, matches)?),
        "merge" => Command::Merge(merge_of(alloc, matches)?),
        "fences" => Command::Fences(fences_of(alloc, matches)?),
        "all" => Command::All(all_of(alloc, matches)?),
        "compare" => Command::Compare(compare_of(matches)),
        "plan" => Command::Plan(plan_of(matches)),
        "draw" => Command::Draw(draw_of(alloc, matches)?),
        "trace" => Command::Trace(run_of(matches)),
        "execution" => Command::Execution(execution_of(matches)),
        // There is no other than `check`.
        _ => Command::Check(check_of(matches)),
    })
}
