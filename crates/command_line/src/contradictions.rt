//! Options that contradict each other.
ghost use Rattle.std.specs.Prelude.{◌≡◌, is_some};
ghost use Rattle.clap.specs.Words.{found_of, rows_of};
ghost use Rattle.command_line.specs.Faults.{contradicts, has_contradiction, has_turned_rounds, is_after};

use crate::given::{is_given, number_given, text_given};
use clap::ArgMatches;

/// An option, whether it contradicts that another one is there or that it isn't, and that other one; an option that the subcommand has where
/// this counts; and what is said of it.
type Contradiction<'a> = (&'a str, bool, &'a str, &'a str, &'a str);

const BESIDE: bool = true;

const WITHOUT: bool = false;

/// Rows of an option, `BESIDE` or `WITHOUT`, another option, one that the subcommand has, and what is said.
macro_rules! contradictions {
    ($($first:literal $beside:ident $second:literal of $has:literal: $text:literal;)*) => {
        [$(($first, $beside, $second, $has, $text)),*]
    };
}

/// A subcommand has `--quota` where it runs a guest program by one plan, and `--weak` where it makes executions if that is set.
static CONTRADICTIONS: [Contradiction<'static>; 16] = contradictions! {
    "plan-number" BESIDE "quota" of "plan-number":
        "the argument '--plan-number <N>' cannot be used with '--quota <PLAN>'";
    "plan-number" BESIDE "plan" of "plan-number":
        "the argument '--plan-number <N>' cannot be used with '--plan <FILE>'";
    "plan-number" BESIDE "budget" of "plan-number":
        "the argument '--plan-number <N>' cannot be used with '--budget <N>'";
    "place" BESIDE "round" of "place":
        "the argument '--place <N>' cannot be used with '--round <N>'";
    "place" BESIDE "count" of "place":
        "the argument '--place <N>' cannot be used with '--count <N>'";
    "how-many" BESIDE "place" of "how-many":
        "the argument '--place <N>' cannot be used with '--how-many'";
    "how-many" BESIDE "count" of "how-many":
        "the argument '--count <N>' cannot be used with '--how-many'";
    "how-many" BESIDE "see" of "how-many":
        "the argument '--see <ADDRESS> <LENGTH>' cannot be used with '--how-many'";
    "how-many" BESIDE "see-object" of "how-many":
        "the argument '--see-object <NAME>' cannot be used with '--how-many'";
    "how-many" WITHOUT "round" of "how-many":
        "the argument '--how-many' asks for '--round <N>', which isn't there";
    "weak" BESIDE "quota" of "weak":
        "the argument '--weak' cannot be used with '--quota <PLAN>'";
    "weak" BESIDE "plan" of "weak":
        "the argument '--weak' cannot be used with '--plan <FILE>'";
    "weak" BESIDE "budget" of "weak":
        "the argument '--weak' cannot be used with '--budget <N>'";
    "weak" WITHOUT "plan-number" of "quota":
        "the argument '--weak' asks for '--plan-number <N>', which isn't there";
    "steps" WITHOUT "weak" of "weak":
        "the argument '--steps <N>' asks for '--weak', which isn't there";
    "seed" WITHOUT "plan-number" of "quota":
        "the argument '--seed <N>' says of which family the plan of '--plan-number <N>' is, which isn't there";
};

/// What is said of options that contradict each other, if there are some.
pub(crate) fn contradiction(matches: &ArgMatches<'_>) -> Option<&'static str>
    ensures { is_some result ≡ has_contradiction (rows_of (found_of matches.now)) }
{
    let mut rest = CONTRADICTIONS.as_slice();
    while let [row, after @ ..] = rest {
        if contradicts(matches, *row) {
            return Some(row.4);
        }
        rest = after;
    }
    if has_turned_rounds(matches) {
        return Some("the round of '--from <N>' comes after that of '--to <N>'");
    }
    None
}

/// Whether the line has the options of the row, or the one without the other.
fn contradicts(matches: &ArgMatches<'_>, row: Contradiction<'_>) -> bool
    ensures { result ≡ contradicts (rows_of (found_of matches.now)) (
      row.entry.0.now,
      row.entry.1,
      row.entry.2.now,
      row.entry.3.now,
    ) }
{
    let (first, beside, second, has, _) = row;
    let is_there = is_given(matches, second);
    text_given(matches, has).is_some()
        && is_given(matches, first)
        && if beside { is_there } else { !is_there }
}

/// Whether the first round comes after the last one.
fn has_turned_rounds(matches: &ArgMatches<'_>) -> bool
    ensures { result ≡ has_turned_rounds (rows_of (found_of matches.now)) }
{
    is_after(number_given(matches, "from"), number_given(matches, "to"))
}

/// Whether there are both rounds, and the first comes after the last.
fn is_after(first: Option<u32>, last: Option<u32>) -> bool
    ensures { result ≡ is_after first last }
{
    match (first, last) {
        (Some(first), Some(last)) => first > last,
        _ => false,
    }
}
