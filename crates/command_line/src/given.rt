//! What `clap` states for an argument or option on the words of a line, by its name.
ghost use Rattle.std.specs.Prelude.{◌≡◌, IfOk, map, option_map};
ghost use Rattle.clap.specs.Words.{first_of, found_of, rows_of};
ghost use Rattle.command_line.specs.Reading.{bytes_of, is_from_line, is_given, is_set, number_at, number_of, pairs, seen_given, text_at, texts_given};

use crate::numbers::{address_in, is_decimal, number_in};
use crate::settings::Bytes;
use clap::ArgMatches;
use clap::parser::ValueSource;
use std::alloc::{AllocError, Global};

/// Whether the line itself gives it.
pub(crate) fn is_given(matches: &ArgMatches<'_>, id: &str) -> bool
    ensures { result ≡ is_given id.now (rows_of (found_of matches.now)) }
{
    is_from_line(matches.value_source(id))
}

/// Whether a text is from the line, and is no default.
fn is_from_line(source: Option<ValueSource>) -> bool
    ensures { result ≡ is_from_line source }
{
    match source {
        Some(ValueSource::CommandLine) => true,
        Some(ValueSource::DefaultValue) | None => false,
    }
}

/// Whether the line has the flag.
pub(crate) fn is_set(matches: &ArgMatches<'_>, id: &str) -> bool
    ensures { result ≡ is_set id.now (rows_of (found_of matches.now)) }
{
    text_of(matches, id) == "true"
}

/// Its text, if it has one.
pub(crate) fn text_given<'a>(matches: &ArgMatches<'a>, id: &str) -> Option<&'a str>
    ensures { option_map (λ s. s.now) result ≡ first_of id.now (rows_of (found_of matches.now)) }
{
    matches.get_str(id)
}

/// Its text, which is empty where it has none.
pub(crate) fn text_of<'a>(matches: &ArgMatches<'a>, id: &str) -> &'a str
    ensures { result.now ≡ text_at id.now (rows_of (found_of matches.now)) }
{
    text_given(matches, id).unwrap_or("")
}

/// Its number, if it has one.
pub(crate) fn number_given(matches: &ArgMatches<'_>, id: &str) -> Option<u32>
    ensures { result ≡ number_at 32 id.now (rows_of (found_of matches.now)) }
{
    matches.get_one::<u32>(id)
}

/// The same of 64 bits.
pub(crate) fn wide_given(matches: &ArgMatches<'_>, id: &str) -> Option<u64>
    ensures { result ≡ number_at 64 id.now (rows_of (found_of matches.now)) }
{
    matches.get_one::<u64>(id)
}

/// Its number, which is 0 where it has none.
pub(crate) fn number_of(matches: &ArgMatches<'_>, id: &str) -> u32
    ensures { result ≡ number_of 32 id.now (rows_of (found_of matches.now)) }
{
    number_given(matches, id).unwrap_or(0)
}

/// The same of 64 bits.
pub(crate) fn wide_of(matches: &ArgMatches<'_>, id: &str) -> u64
    ensures { result ≡ number_of 64 id.now (rows_of (found_of matches.now)) }
{
    wide_given(matches, id).unwrap_or(0)
}

/// All its texts, in the order of the line.
pub(crate) fn texts_of<'a>(
    alloc: Global,
    matches: &ArgMatches<'a>,
    id: &str,
) -> Result<Vec<&'a str>, AllocError>
    ensures { IfOk result (λ texts. map (λ s. s.now) texts.items ≡
        texts_given id.now (rows_of (found_of matches.now))) }
{
    match matches.get_strs(id) {
        Some(texts) => Vec::from_slice(alloc, texts),
        None => Ok(Vec::new(alloc)),
    }
}

/// The bytes after each `--see`, in the order of the line.
pub(crate) fn seen_of(alloc: Global, matches: &ArgMatches<'_>) -> Result<Vec<Bytes>, AllocError>
    ensures { IfOk result (λ seen. seen.items ≡
        map bytes_of (seen_given (rows_of (found_of matches.now)))) }
{
    match matches.get_strs("see") {
        Some(texts) => bytes_in(alloc, texts),
        None => Ok(Vec::new(alloc)),
    }
}

/// The bytes that the texts say two by two.
fn bytes_in(alloc: Global, texts: &[&str]) -> Result<Vec<Bytes>, AllocError>
    ensures { IfOk result (λ seen. seen.items ≡ map bytes_of (pairs (map (λ s. s.now) texts.now))) }
{
    let mut seen = Vec::new(alloc);
    let mut rest = texts;
    while let [address, length, after @ ..] = rest {
        seen.push(Bytes {
            address: address_in(address).unwrap_or(0),
            length: number_in(length, 10).unwrap_or(0),
            is_decimal: is_decimal(address),
        })?;
        rest = after;
    }
    Ok(seen)
}
