//! Errors of a line, each with the usage of its subcommand.
ghost use Rattle.std.specs.Prelude.{◌≡◌, IfOk, IfSome};
ghost use Rattle.clap.specs.Words.{kind_of};

use crate::parsing::error_of;
use clap::Error;
use clap::error::ErrorKind;
use std::alloc::{AllocError, Global};

/// An error of a line of these words, as it is told: with the usage of the subcommand that the line names. `clap` tells none of a bad value,
/// and else that with the options of the line alone.
pub fn with_usage(alloc: Global, words: &[&str], error: Error) -> Error
    ensures { kind_of result ≡ kind_of error }
{
    match told_anew(alloc, words, &error) {
        Ok(Some(told)) => told,
        _ => error,
    }
}

/// The error as it is told, where it is of a subcommand.
fn told_anew(alloc: Global, words: &[&str], error: &Error) -> Result<Option<Error>, AllocError>
    ensures { IfOk result (λ told. IfSome told (λ e. kind_of e ≡ kind_of error.now)) }
{
    let Some(name) = subcommand_of(words, error.kind()) else {
        return Ok(None);
    };
    let text = format!(in alloc; "{error}")?;
    let Some(message) = message_in(text.as_str()) else {
        return Ok(None);
    };
    Ok(Some(error_of(alloc, name, error.kind(), message)?))
}

/// The subcommand that a line names which `clap` refuses for such an error.
fn subcommand_of<'a>(words: &[&'a str], kind: ErrorKind) -> Option<&'a str> {
    match kind {
        // The line names none, or asks for help, or memory ran out.
        ErrorKind::InvalidSubcommand
        | ErrorKind::MissingSubcommand
        | ErrorKind::DisplayHelp
        | ErrorKind::DisplayHelpOnMissingArgumentOrSubcommand
        | ErrorKind::DisplayVersion
        | ErrorKind::OutOfMemory => None,
        _ => match words {
            [_, name, ..] if !name.starts_with('-') => Some(*name),
            _ => None,
        },
    }
}

/// What an error's text says before its usage.
fn message_in(text: &str) -> Option<&str> {
    let (_, told) = text.split_once("error: ")?;
    match told.rsplit_once("\n\nUsage: ") {
        Some((message, _)) => Some(message),
        None => match told.rsplit_once("\n\nFor more information") {
            Some((message, _)) => Some(message),
            None => None,
        },
    }
}
