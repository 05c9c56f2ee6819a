//! What the matches of each subcommand say: the value that `clap` states, for each argument and option.
ghost use Rattle.std.specs.Prelude.{◌≡◌, IfOk};
ghost use Rattle.clap.specs.Words.{found_of, rows_of};
ghost use Rattle.command_line.specs.Reading.{HoldsAll, HoldsCheck, HoldsCompare, HoldsDraw, HoldsExecution, HoldsFences, HoldsGdb, HoldsHunt, HoldsMerge, HoldsMigrate, HoldsPlan, HoldsPlanChoice, HoldsPrint, HoldsProgram, HoldsRecord, HoldsReplay, HoldsRun, HoldsSearch, HoldsShrink, HoldsWatch, address_is_decimal, asks_of_a_hart, fail_on_at, is_unread, quota_is_unread};

use crate::given::{
    is_given, is_set, number_given, number_of, seen_of, text_given, text_of, texts_of, wide_given,
    wide_of,
};
use crate::numbers::{address_in, is_decimal};
use crate::settings::{
    AllEndings, Check, Compare, Draw, Execution, FailOn, Fences, FencesFailOn, Gdb, Hunt, Merge,
    Migrate, Plan, PlanChoice, Print, Program, Record, Replay, Run, Search, Shown, Shrink, Watch,
};
use crate::words::{fail_on_in, fences_fail_on_in, is_until_missing, shown_in, until_in};
use clap::ArgMatches;
use std::alloc::{AllocError, Global};

/// The program, and what it is run with.
fn program_of<'a>(matches: &ArgMatches<'a>) -> Program<'a>
    ensures { HoldsProgram (rows_of (found_of matches.now)) result }
{
    Program {
        image: text_of(matches, "image"),
        flat: is_set(matches, "flat"),
        spurious: is_set(matches, "spurious"),
        harts: number_of(matches, "harts"),
        pages: number_of(matches, "pages"),
        rounds: number_of(matches, "rounds"),
        workers: number_of(matches, "workers"),
        input: text_given(matches, "input"),
        progress: is_set(matches, "progress"),
    }
}

/// Which plan the run goes by.
fn plan_choice_of<'a>(matches: &ArgMatches<'a>) -> PlanChoice<'a>
    ensures { HoldsPlanChoice (rows_of (found_of matches.now)) result }
{
    PlanChoice {
        quota: text_of(matches, "quota"),
        file: text_given(matches, "plan"),
        budget: number_of(matches, "budget"),
        number: number_given(matches, "plan-number"),
        seed: wide_of(matches, "seed"),
        quota_is_unread: quota_is_unread(matches),
    }
}

/// Whether the line gives a row of quotas, and a file that has the plan.
fn quota_is_unread(matches: &ArgMatches<'_>) -> bool
    ensures { result ≡ quota_is_unread (rows_of (found_of matches.now)) }
{
    is_given(matches, "quota") && is_given(matches, "plan")
}

/// What the matches of `order` say, and those of `run`, `record` and `draw` of the run.
pub(crate) fn run_of<'a>(matches: &ArgMatches<'a>) -> Run<'a>
    ensures { HoldsRun (rows_of (found_of matches.now)) result }
{
    Run {
        program: program_of(matches),
        plan: plan_choice_of(matches),
    }
}

/// What the matches of `run` say.
pub(crate) fn print_of<'a>(matches: &ArgMatches<'a>) -> Print<'a>
    ensures { HoldsPrint (rows_of (found_of matches.now)) result }
{
    Print {
        run: run_of(matches),
        show: shown_in(text_of(matches, "show")).unwrap_or(Shown::Report),
        no_trace: is_set(matches, "no-trace"),
        strict: is_set(matches, "strict"),
    }
}

/// What the matches of `record` say.
pub(crate) fn record_of<'a>(matches: &ArgMatches<'a>) -> Record<'a>
    ensures { HoldsRecord (rows_of (found_of matches.now)) result }
{
    Record {
        run: run_of(matches),
        out: text_of(matches, "out"),
        every: number_of(matches, "every"),
        until_stopped: is_set(matches, "until-stopped"),
    }
}

/// What the matches of `replay` say.
pub(crate) fn replay_of<'a>(
    alloc: Global,
    matches: &ArgMatches<'a>,
) -> Result<Replay<'a>, AllocError>
    ensures { IfOk result (HoldsReplay (rows_of (found_of matches.now))) }
{
    let seen = seen_of(alloc, matches)?;
    let objects = texts_of(alloc, matches, "see-object")?;
    Ok(Replay {
        recording: text_of(matches, "recording"),
        workers: number_of(matches, "workers"),
        round: number_given(matches, "round"),
        hart: number_of(matches, "hart"),
        count: wide_of(matches, "count"),
        how_many: is_set(matches, "how-many"),
        place: wide_given(matches, "place"),
        seen,
        objects,
        every: number_of(matches, "every"),
        progress: is_set(matches, "progress"),
        hart_is_unread: is_unread(matches, "hart"),
        count_is_unread: is_unread(matches, "count"),
        seen_is_unread: is_unread(matches, "see"),
        object_is_unread: is_unread(matches, "see-object"),
    })
}

/// Whether `replay` is asked of a hart.
fn asks_of_a_hart(matches: &ArgMatches<'_>) -> bool
    ensures { result ≡ asks_of_a_hart (rows_of (found_of matches.now)) }
{
    is_given(matches, "round") || is_given(matches, "place")
}

/// Whether the line gives the option `id`, which says of which hart, where and what, and doesn't ask of a hart.
fn is_unread(matches: &ArgMatches<'_>, id: &str) -> bool
    ensures { result ≡ is_unread id.now (rows_of (found_of matches.now)) }
{
    is_given(matches, id) && !asks_of_a_hart(matches)
}

/// What the matches of `watch` say.
pub(crate) fn watch_of<'a>(alloc: Global, matches: &ArgMatches<'a>) -> Result<Watch<'a>, AllocError>
    ensures { IfOk result (HoldsWatch (rows_of (found_of matches.now))) }
{
    let more = seen_of(alloc, matches)?;
    let objects = texts_of(alloc, matches, "see-object")?;
    Ok(Watch {
        recording: text_of(matches, "recording"),
        address: address_in(text_of(matches, "address")),
        is_decimal: address_is_decimal(matches),
        length: wide_of(matches, "length"),
        more,
        objects,
        hart: number_given(matches, "hart"),
        stores: is_set(matches, "stores"),
        pc: is_set(matches, "pc"),
        from: number_given(matches, "from"),
        to: number_given(matches, "to"),
        workers: number_of(matches, "workers"),
        progress: is_set(matches, "progress"),
    })
}

/// Whether `watch` is given ADDRESS, in decimal.
fn address_is_decimal(matches: &ArgMatches<'_>) -> bool
    ensures { result ≡ address_is_decimal (rows_of (found_of matches.now)) }
{
    is_given(matches, "address") && is_decimal(text_of(matches, "address"))
}

/// What the matches of `migrate` say.
pub(crate) fn migrate_of<'a>(matches: &ArgMatches<'a>) -> Migrate<'a>
    ensures { HoldsMigrate (rows_of (found_of matches.now)) result }
{
    Migrate {
        recording: text_of(matches, "recording"),
        out: text_of(matches, "out"),
    }
}

/// What the matches of `gdb` say.
pub(crate) fn gdb_of<'a>(matches: &ArgMatches<'a>) -> Gdb<'a>
    ensures { HoldsGdb (rows_of (found_of matches.now)) result }
{
    Gdb {
        recording: text_of(matches, "recording"),
    }
}

/// What the matches of `hunt`, `shrink`, `fences` and `all` say of the runs.
fn search_of<'a>(alloc: Global, matches: &ArgMatches<'a>) -> Result<Search<'a>, AllocError>
    ensures { IfOk result (HoldsSearch (rows_of (found_of matches.now))) }
{
    let seen = seen_of(alloc, matches)?;
    let objects = texts_of(alloc, matches, "see-object")?;
    Ok(Search {
        program: program_of(matches),
        seed: wide_of(matches, "seed"),
        seen,
        objects,
    })
}

/// What the matches of `hunt` say.
pub(crate) fn hunt_of<'a>(alloc: Global, matches: &ArgMatches<'a>) -> Result<Hunt<'a>, AllocError>
    ensures { IfOk result (HoldsHunt (rows_of (found_of matches.now))) }
{
    let search = search_of(alloc, matches)?;
    Ok(Hunt {
        search,
        plans: number_of(matches, "plans"),
        first: number_of(matches, "first"),
        fail_on: fail_on_of(matches),
        until: until_in(text_of(matches, "until")),
        seconds: number_given(matches, "seconds"),
        weak: is_set(matches, "weak"),
        steps: number_of(matches, "steps"),
    })
}

/// What the matches of `shrink` say.
pub(crate) fn shrink_of<'a>(
    alloc: Global,
    matches: &ArgMatches<'a>,
) -> Result<Shrink<'a>, AllocError>
    ensures { IfOk result (HoldsShrink (rows_of (found_of matches.now))) }
{
    let search = search_of(alloc, matches)?;
    Ok(Shrink {
        search,
        plan_number: number_of(matches, "plan-number"),
    })
}

/// What the matches of `merge` say.
pub(crate) fn merge_of<'a>(alloc: Global, matches: &ArgMatches<'a>) -> Result<Merge<'a>, AllocError>
    ensures { IfOk result (HoldsMerge (rows_of (found_of matches.now))) }
{
    let tables = texts_of(alloc, matches, "table")?;
    let fail_on = fail_on_of(matches);
    Ok(Merge { tables, fail_on })
}

/// Which endings `--fail-on` of `hunt` and `merge` says.
fn fail_on_of(matches: &ArgMatches<'_>) -> FailOn
    ensures { result ≡ fail_on_at (rows_of (found_of matches.now)) }
{
    fail_on_in(text_of(matches, "fail-on")).unwrap_or(FailOn::Either)
}

/// What the matches of `fences` say.
pub(crate) fn fences_of<'a>(
    alloc: Global,
    matches: &ArgMatches<'a>,
) -> Result<Fences<'a>, AllocError>
    ensures { IfOk result (HoldsFences (rows_of (found_of matches.now))) }
{
    let search = search_of(alloc, matches)?;
    let as_if_fence = texts_of(alloc, matches, "as-if-fence")?;
    Ok(Fences {
        search,
        plans: number_of(matches, "plans"),
        first: number_of(matches, "first"),
        steps: number_of(matches, "steps"),
        fail_on: fences_fail_on_in(text_of(matches, "fail-on")).unwrap_or(FencesFailOn::Missing),
        until_missing: is_until_missing(text_of(matches, "until")),
        seconds: number_given(matches, "seconds"),
        keep: text_given(matches, "keep"),
        accept: text_given(matches, "accept"),
        as_if_fence,
    })
}

/// What the matches of `all` say.
pub(crate) fn all_of<'a>(
    alloc: Global,
    matches: &ArgMatches<'a>,
) -> Result<AllEndings<'a>, AllocError>
    ensures { IfOk result (HoldsAll (rows_of (found_of matches.now))) }
{
    let search = search_of(alloc, matches)?;
    Ok(AllEndings {
        search,
        steps: number_of(matches, "steps"),
        nodes: number_of(matches, "nodes"),
        seconds: number_given(matches, "seconds"),
        keep: text_given(matches, "keep"),
        fences: is_set(matches, "fences"),
    })
}

/// What the matches of `compare` say.
pub(crate) fn compare_of<'a>(matches: &ArgMatches<'a>) -> Compare<'a>
    ensures { HoldsCompare (rows_of (found_of matches.now)) result }
{
    Compare {
        old: text_of(matches, "old"),
        new: text_of(matches, "new"),
    }
}

/// What the matches of `plan` say.
pub(crate) fn plan_of(matches: &ArgMatches<'_>) -> Plan
    ensures { HoldsPlan (rows_of (found_of matches.now)) result }
{
    Plan {
        number: number_of(matches, "number"),
        harts: number_of(matches, "harts"),
        seed: wide_of(matches, "seed"),
    }
}

/// What the matches of `draw` say.
pub(crate) fn draw_of<'a>(alloc: Global, matches: &ArgMatches<'a>) -> Result<Draw<'a>, AllocError>
    ensures { IfOk result (HoldsDraw (rows_of (found_of matches.now))) }
{
    let seen = seen_of(alloc, matches)?;
    let objects = texts_of(alloc, matches, "see-object")?;
    Ok(Draw {
        run: run_of(matches),
        seen,
        objects,
        from: number_given(matches, "from"),
        to: number_given(matches, "to"),
    })
}

/// What the matches of `execution` say.
pub(crate) fn execution_of<'a>(matches: &ArgMatches<'a>) -> Execution<'a>
    ensures { HoldsExecution (rows_of (found_of matches.now)) result }
{
    Execution {
        run: run_of(matches),
        weak: is_set(matches, "weak"),
        steps: number_of(matches, "steps"),
    }
}

/// What the matches of `check` say.
pub(crate) fn check_of<'a>(matches: &ArgMatches<'a>) -> Check<'a>
    ensures { HoldsCheck (rows_of (found_of matches.now)) result }
{
    Check {
        file: text_of(matches, "file"),
    }
}
