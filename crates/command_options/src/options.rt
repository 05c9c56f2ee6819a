//! The command line as `clap` is told it.
ghost use Rattle.std.specs.Prelude.{◌≡◌, IfOk, false, map, option_map};
ghost use Rattle.clap.specs.Words.{app_of, new_app};
ghost use Rattle.clap.specs.declared.builder.command.Command.TheViews.{out-Command};
ghost use Rattle.command_options.specs.Options.{ReadsAsAll, app_told, bare_app, dethart_app, named, named_app, subcommand_told, subcommands};

use crate::rows::with_rows;
use crate::tables::{SUBCOMMANDS, Subcommand, rows_in};
use clap::Command;
use command_help::{ABOUT, AFTER_HELP, after_help_of};
use std::alloc::{AllocError, Global};

/// The version of `dethart`, and the sum of the logic that it was proved in.
const VERSION: &str = "1.0.0 (logic dac8208d650f15bf)";

/// The command `dethart` as `clap` reads these words by it, of which the first is the program's name.
///
/// It has the subcommand that the second word names, and no other: all are built only where it names none.
pub fn command_for<'a>(alloc: Global, words: &[&str]) -> Result<Command<'a>, AllocError>
    ensures { IfOk result (λ command. ReadsAsAll (map (λ s. s.now) words.now) (app_of command)) }
{
    match words {
        [_, name, ..] => match named(name) {
            Some(subcommand) => bare_command(alloc).subcommand(told(alloc, *subcommand)?),
            None => dethart_command(alloc),
        },
        _ => dethart_command(alloc),
    }
}

/// The command `dethart` with its subcommands.
fn dethart_command<'a>(alloc: Global) -> Result<Command<'a>, AllocError>
    ensures { IfOk result (λ command. app_of command ≡ dethart_app) }
{
    let mut command = bare_command(alloc);
    let mut rest = subcommands();
    while let [subcommand, after @ ..] = rest {
        command = command.subcommand(told(alloc, *subcommand)?)?;
        rest = after;
    }
    Ok(command)
}

/// The subcommand of a name alone, whose usage is told of a line that it doesn't take; where there is none, the command without subcommands.
pub fn subcommand_named<'a>(alloc: Global, name: &str) -> Result<Command<'a>, AllocError>
    ensures { IfOk result (λ command. app_of command ≡ named_app name.now) }
{
    match named(name) {
        Some(subcommand) => told(alloc, *subcommand),
        None => Ok(bare_command(alloc)),
    }
}

/// The subcommands, in the order of the help.
fn subcommands() -> &'static [Subcommand<'static>]
    ensures { map subcommand_told result.now ≡ subcommands }
{
    SUBCOMMANDS.as_slice()
}

/// The subcommand of a name.
fn named(name: &str) -> Option<&'static Subcommand<'static>>
    ensures { option_map (λ s. subcommand_told s.now) result ≡ named name.now }
{
    let mut rest = subcommands();
    while let [subcommand, after @ ..] = rest {
        if subcommand.0 == name {
            return Some(subcommand);
        }
        rest = after;
    }
    None
}

/// The subcommand as `clap` is told it.
fn told<'a>(alloc: Global, subcommand: Subcommand<'a>) -> Result<Command<'a>, AllocError>
    ensures app { IfOk result (λ command.
        app_of command ≡ app_told (subcommand_told subcommand.entry)) }
    ensures local { IfOk result (λ command. (out-Command command).has_globals ≡ false) }
{
    let (name, base, own, about) = subcommand;
    let command = new_command(alloc, name, about, after_help_of(name));
    let command = with_rows(alloc, command, rows_in(base))?;
    with_rows(alloc, command, rows_in(own))
}

/// The command without its subcommands.
fn bare_command<'a>(alloc: Global) -> Command<'a>
    ensures app { app_of result ≡ bare_app }
    ensures local { (out-Command result).has_globals ≡ false }
{
    new_command(alloc, "dethart", ABOUT, AFTER_HELP)
        .version(VERSION)
        .subcommand_required(true)
        .disable_help_subcommand(true)
}

/// A command without arguments and subcommands.
fn new_command<'a>(alloc: Global, name: &'a str, about: &'a str, after_help: &'a str) -> Command<'a>
    ensures app { app_of result ≡ new_app name.entry.now }
    ensures local { (out-Command result).has_globals ≡ false }
{
    Command::new(alloc, name)
        .about(about)
        .after_help(after_help)
}
