//! One row an argument or an option, and how `clap` is told it.
ghost use Rattle.std.specs.Prelude.{◌≡◌, IfOk, Some, false, if◌then◌else◌, map};
ghost use Rattle.clap.specs.Words.{app_of, rule_of};
ghost use Rattle.clap.specs.declared.builder.command.Command.TheViews.{out-Command};
ghost use Rattle.command_options.specs.Options.{parser_of, row_told, rule_told, with_rows};

use clap::builder::ValueParser;
use clap::{Arg, ArgAction, Command};
use std::alloc::{AllocError, Global};

/// An argument or an option of a subcommand: its name, its kind, what the usage calls its values, its default where it has one, and its help.
pub(crate) type Row<'a> = (&'a str, Kind, &'a [&'a str], &'a [&'a str], &'a str);

/// What kind of argument or option it is.
#[derive(Clone, Copy, Drop)]
pub(crate) struct Kind {
    /// The option `--NAME`, and no argument.
    pub(crate) is_option: bool,
    /// Which texts a value may be.
    pub(crate) value: Value,
    /// What a use of it does.
    pub(crate) action: ArgAction,
    /// It must be there.
    pub(crate) required: bool,
}

/// Which texts a value may be.
#[derive(Clone, Copy, Drop)]
pub(crate) enum Value {
    /// Any.
    Text,
    /// None: it is a flag.
    Flag,
    /// A number of 32 bits.
    Narrow,
    /// A number of 64 bits.
    Wide,
}

/// An argument that must be there.
pub(crate) const ARGUMENT: Kind = Kind {
    is_option: false,
    value: Value::Text,
    action: ArgAction::Set,
    required: true,
};

/// One or more arguments.
pub(crate) const ARGUMENTS: Kind = Kind {
    action: ArgAction::Append,
    ..ARGUMENT
};

/// A number that must be there.
pub(crate) const NUMBER_ARGUMENT: Kind = Kind {
    value: Value::Narrow,
    ..ARGUMENT
};

/// An argument that may be missing.
pub(crate) const MAYBE: Kind = Kind {
    required: false,
    ..ARGUMENT
};

/// A number of 64 bits that may be missing.
pub(crate) const MAYBE_WIDE: Kind = Kind {
    value: Value::Wide,
    ..MAYBE
};

/// An option with a value.
pub(crate) const OPTION: Kind = Kind {
    is_option: true,
    ..MAYBE
};

/// An option that may be there several times.
pub(crate) const REPEATED: Kind = Kind {
    action: ArgAction::Append,
    ..OPTION
};

/// An option without a value.
pub(crate) const FLAG: Kind = Kind {
    value: Value::Flag,
    action: ArgAction::SetTrue,
    ..OPTION
};

/// An option with a number of 32 bits.
pub(crate) const NUMBER: Kind = Kind {
    value: Value::Narrow,
    ..OPTION
};

/// The same, that must be there.
pub(crate) const WANTED: Kind = Kind {
    required: true,
    ..NUMBER
};

/// An option with a number of 64 bits.
pub(crate) const WIDE: Kind = Kind {
    value: Value::Wide,
    ..OPTION
};

/// The command with these arguments and options too, one after another.
pub(crate) fn with_rows<'a>(
    alloc: Global,
    mut command: Command<'a>,
    rows: &[Row<'a>],
) -> Result<Command<'a>, AllocError>
    requires local { (out-Command command).has_globals ≡ false }
    ensures app { IfOk result (λ new. app_of new ≡
        with_rows (app_of command.entry) (map row_told rows.now)) }
    ensures local { IfOk result (λ new. (out-Command new).has_globals ≡ false) }
{
    let mut rest = rows;
    while let [row, after @ ..] = rest {
        command = command.arg(told(alloc, *row))?;
        rest = after;
    }
    Ok(command)
}

/// The argument or option as `clap` is told it.
fn told<'a>(alloc: Global, row: Row<'a>) -> Arg<'a>
    ensures rule { rule_of result ≡ rule_told (row_told row.entry) }
    ensures local { result.global ≡ false }
{
    let (id, kind, values, defaults, help) = row;
    let arg = Arg::new(alloc, id)
        .value_names(values)
        .default_values(defaults)
        .help(help)
        .value_parser(parser_of(kind.value))
        .action(kind.action)
        .required(kind.required);
    with_name(arg, id, kind.is_option)
}

/// The argument as the option `--NAME`, if it is one.
fn with_name<'a>(arg: Arg<'a>, name: &'a str, is_option: bool) -> Arg<'a>
    ensures rule { rule_of result ≡
        (if is_option then record (rule_of arg.entry) { long = Some name.entry.now }
        else rule_of arg.entry) }
    ensures local { result.global ≡ arg.entry.global }
{
    if is_option { arg.long(name) } else { arg }
}

/// The parser of such a value.
fn parser_of(value: Value) -> ValueParser<'static>
    ensures { result ≡ parser_of value }
{
    match value {
        Value::Text => ValueParser::String,
        Value::Flag => ValueParser::Bool,
        Value::Narrow => ValueParser::Signed(0, u32::MAX as i64),
        Value::Wide => ValueParser::Unsigned(0, u64::MAX),
    }
}
