//! Words that `clap` takes as texts, and what is said of those that are none.
ghost use Rattle.std.specs.Prelude.{◌≡◌, is_some, map};
ghost use Rattle.std.specs.List.{list_any};
ghost use Rattle.clap.specs.Words.{found_of, rows_of};
ghost use Rattle.command_line.specs.Faults.{has_bad_address, has_bad_bytes, has_bad_word, has_no_bytes, is_bad, is_bad_pair, is_word};
ghost use Rattle.command_line.specs.Reading.{fail_on_in, fences_fail_on_in, is_until_missing, pairs, shown_in, until_in};

use crate::given::{is_given, text_of};
use crate::numbers::{address_in, number_in};
use crate::settings::{FailOn, FencesFailOn, HuntUntil, Shown};
use clap::ArgMatches;

/// What is said of a word that `clap` takes and the subcommand of this name doesn't, if there is one.
pub(crate) fn bad_word(name: &str, matches: &ArgMatches<'_>) -> Option<&'static str>
    ensures { is_some result ≡ has_bad_word name.now (rows_of (found_of matches.now)) }
{
    if has_bad_address(matches) {
        Some(
            "invalid value for '<ADDRESS>': it is a number of 64 bits, in hexadecimal or in decimal: begin it with 0x, or write it without leading zeros",
        )
    } else if name == "watch" && has_no_bytes(matches) {
        Some(
            "name bytes: '<ADDRESS> <LENGTH>', '--see <ADDRESS> <LENGTH>' or '--see-object <NAME>'",
        )
    } else if has_bad_bytes(matches) {
        Some(
            "invalid value for '--see <ADDRESS> <LENGTH>': these are numbers of 64 bits, LENGTH in decimal, and ADDRESS in hexadecimal or in decimal: begin it with 0x, or write it without leading zeros",
        )
    } else if is_bad(name, "show", matches) {
        Some("invalid value for '--show <WHAT>': it is report, output or harts")
    } else if is_bad(name, "fail-on", matches) {
        Some(if name == "fences" {
            "invalid value for '--fail-on <WHAT>': it is missing or never"
        } else {
            "invalid value for '--fail-on <WHAT>': it is differ, bad, differ,bad or never"
        })
    } else if is_bad(name, "until", matches) {
        Some(if name == "fences" {
            "invalid value for '--until <WHAT>': it is missing"
        } else {
            "invalid value for '--until <WHAT>': it is bad or differ"
        })
    } else if is_bad(name, "as", matches) {
        Some("invalid value for '--as <FORM>': it is perfetto")
    } else {
        None
    }
}

/// Whether the line has a word after the option that the subcommand of this name doesn't take.
fn is_bad(name: &str, id: &str, matches: &ArgMatches<'_>) -> bool
    ensures { result ≡ is_bad name.now id.now (rows_of (found_of matches.now)) }
{
    is_given(matches, id) && !is_word(name, id, text_of(matches, id))
}

/// Whether the subcommand of this name takes the word after the option.
fn is_word(name: &str, id: &str, text: &str) -> bool
    ensures { result ≡ is_word name.now id.now text.now }
{
    if id == "show" {
        shown_in(text).is_some()
    } else if id == "as" {
        text == "perfetto"
    } else if id == "fail-on" {
        if name == "fences" {
            fences_fail_on_in(text).is_some()
        } else {
            fail_on_in(text).is_some()
        }
    } else if name == "fences" {
        is_until_missing(text)
    } else {
        until_in(text).is_some()
    }
}

/// Whether there is an ADDRESS that is none.
fn has_bad_address(matches: &ArgMatches<'_>) -> bool
    ensures { result ≡ has_bad_address (rows_of (found_of matches.now)) }
{
    is_given(matches, "address") && address_in(text_of(matches, "address")).is_none()
}

/// Whether there is an ADDRESS without a LENGTH, or neither ADDRESS nor `--see` nor `--see-object`.
fn has_no_bytes(matches: &ArgMatches<'_>) -> bool
    ensures { result ≡ has_no_bytes (rows_of (found_of matches.now)) }
{
    if is_given(matches, "address") {
        !is_given(matches, "length")
    } else {
        !(is_given(matches, "see") || is_given(matches, "see-object"))
    }
}

/// Whether ADDRESS or LENGTH of a `--see` is none.
fn has_bad_bytes(matches: &ArgMatches<'_>) -> bool
    ensures { result ≡ has_bad_bytes (rows_of (found_of matches.now)) }
{
    match matches.get_strs("see") {
        Some(texts) => has_bad_pair(texts),
        None => false,
    }
}

/// Whether one of the texts, two by two, is no ADDRESS or no LENGTH.
fn has_bad_pair(texts: &[&str]) -> bool
    ensures { result ≡ list_any is_bad_pair (pairs (map (λ s. s.now) texts.now)) }
{
    let mut rest = texts;
    while let [address, length, after @ ..] = rest {
        if address_in(address).is_none() || number_in(length, 10).is_none() {
            return true;
        }
        rest = after;
    }
    false
}

/// What the word after `--show` asks for.
pub(crate) fn shown_in(text: &str) -> Option<Shown>
    ensures { result ≡ shown_in text.now }
{
    if text == "report" {
        Some(Shown::Report)
    } else if text == "output" {
        Some(Shown::Output)
    } else if text == "harts" {
        Some(Shown::Harts)
    } else {
        None
    }
}

/// Which endings the words after `--fail-on` of `hunt` say.
pub(crate) fn fail_on_in(text: &str) -> Option<FailOn>
    ensures { result ≡ fail_on_in text.now }
{
    if text == "differ" {
        Some(FailOn::Differ)
    } else if text == "bad" {
        Some(FailOn::Bad)
    } else if text == "differ,bad" || text == "bad,differ" {
        Some(FailOn::Either)
    } else if text == "never" {
        Some(FailOn::Never)
    } else {
        None
    }
}

/// Which ending the word after `--until` of `hunt` says.
pub(crate) fn until_in(text: &str) -> Option<HuntUntil>
    ensures { result ≡ until_in text.now }
{
    if text == "bad" {
        Some(HuntUntil::Bad)
    } else if text == "differ" {
        Some(HuntUntil::Differ)
    } else {
        None
    }
}

/// Which tables the word after `--fail-on` of `fences` says.
pub(crate) fn fences_fail_on_in(text: &str) -> Option<FencesFailOn>
    ensures { result ≡ fences_fail_on_in text.now }
{
    if text == "missing" {
        Some(FencesFailOn::Missing)
    } else if text == "never" {
        Some(FencesFailOn::Never)
    } else {
        None
    }
}

/// Whether the word after `--until` says so.
pub(crate) fn is_until_missing(text: &str) -> bool
    ensures { result ≡ is_until_missing text.now }
{
    text == "missing"
}
