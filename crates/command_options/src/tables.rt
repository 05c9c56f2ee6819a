//! What each subcommand takes: one row an argument or option. Its default and its range stand here alone, and its help.
ghost use Rattle.std.specs.Prelude.{◌≡◌, map};
ghost use Rattle.command_options.specs.Options.{row_told, rows_in};

use crate::rows::{
    ARGUMENT, ARGUMENTS, FLAG, MAYBE, MAYBE_WIDE, NUMBER, NUMBER_ARGUMENT, OPTION, REPEATED, Row,
    WANTED, WIDE,
};

/// A subcommand: its name, what it takes as others do, and alone, and what it does.
pub(crate) type Subcommand<'a> = (&'a str, Group, Group, &'a str);

/// What one subcommand takes alone, or several.
#[derive(Clone, Copy, Drop)]
pub(crate) enum Group {
    /// Nothing.
    Nothing,
    /// A guest program.
    Guest,
    /// One, and the plan of its run.
    Running,
    /// One, and what is seen of its runs by plans of a family.
    Searching,
    Run,
    Record,
    Replay,
    Watch,
    Migrate,
    Gdb,
    Hunt,
    Shrink,
    Merge,
    Fences,
    All,
    Compare,
    Plan,
    Draw,
    Trace,
    Execution,
    Check,
}

/// Rows of a name, what the subcommand takes, and what it does.
macro_rules! subcommands {
    ($($name:literal $base:ident $own:ident: $about:literal;)*) => {
        [$(($name, Group::$base, Group::$own, $about)),*]
    };
}

/// The subcommands, in the order of the help.
pub(crate) static SUBCOMMANDS: [Subcommand<'static>; 18] = subcommands! {
    "run" Running Run: "Runs the program in IMAGE, and prints the report.";
    "order" Running Nothing: "Runs the program in IMAGE, and prints its memory operations in order.";
    "record" Running Record: "Runs the program in IMAGE, and writes a recording to OUT.";
    "replay" Nothing Replay: "Does the run in RECORDING again, and says whether it is the same.";
    "watch" Nothing Watch: "Does the run in RECORDING again, and prints accesses to some bytes.";
    "migrate" Nothing Migrate: "Writes the recording in RECORDING anew, in version 2, to OUT.";
    "gdb" Nothing Gdb: "Serves gdb, which looks at the run or the execution in RECORDING.";
    "hunt" Searching Hunt: "Runs the program in IMAGE by many plans, and prints how it ends.";
    "shrink" Searching Shrink: "Looks for a smaller plan by which the program in IMAGE ends the same.";
    "merge" Nothing Merge: "Makes one table of endings of those in the files.";
    "fences" Searching Fences: "Looks for missing fences; claims nothing of what isn't printed.";
    "all" Guest All: "Searches through all executions for the ways that the program ends.";
    "compare" Nothing Compare: "Tells which endings only one of two tables has.";
    "plan" Nothing Plan: "Prints plan N of the family that the seed stands for.";
    "draw" Running Draw: "Runs the program in IMAGE, and prints a picture of the run (SVG).";
    "trace" Running Trace: "Runs the program in IMAGE, and prints its trace for a viewer of traces.";
    "execution" Running Execution: "Runs the program in IMAGE, and prints the run as an execution.";
    "check" Nothing Check: "Says whether the memory model RVWMO allows the execution in FILE.";
};

/// A row of a name, a kind, what the usage calls the values, a default where there is one, and the help.
macro_rules! row {
    ($id:literal $kind:ident $($value:literal)* $(= $default:literal)?: $help:literal) => {
        ($id, $kind, &[$($value),*], &[$($default)?], $help)
    };
}

// ---- what several subcommands take

const HARTS: Row<'static> = row! { "harts" NUMBER "N" = "1": "Harts: 1 to 64" };
/// They must be given: by the default of one hart every plan would come to the same ending.
const HARTS_WANTED: Row<'static> = row! { "harts" WANTED "N": "Harts: 1 to 64" };

const PAGES: Row<'static> = row! { "pages" NUMBER "N" = "256": "Pages of 4096 bytes: 1 to 16384" };

const WORKERS: Row<'static> = row! { "workers" NUMBER "N" = "4": "Threads: 1 to 16, same outcome" };

const INPUT: Row<'static> = row! {
    "input" OPTION "FILE": "What the guest reads [default: no input]"
};

const PROGRESS: Row<'static> = row! { "progress" FLAG: "Say on standard error how far it is" };

const SEED: Row<'static> = row! { "seed" WIDE "N" = "1": "Which family: any number of 64 bits" };

const SEE_ENDINGS: Row<'static> = row! {
    "see" REPEATED "ADDRESS" "LENGTH": "Bytes that tell endings apart; can be repeated"
};

const OBJECT: Row<'static> = row! {
    "see-object" REPEATED "NAME": "The same, a symbol's bytes; can be repeated"
};

const FAIL_ON: Row<'static> = row! {
    "fail-on" OPTION "WHAT" = "differ,bad": "Exit with 4 on: differ, bad or never"
};
/// The recording of a question that an execution answers too.
const PAST: Row<'static> = row! {
    "recording" ARGUMENT "RECORDING": "A recording, or an execution as dethart execution prints it"
};

const IMAGE: Row<'static> = row! {
    "image" ARGUMENT "IMAGE": "The file of the guest program: ELF, or any code with --flat"
};

const FLAT: Row<'static> = row! { "flat" FLAG: "IMAGE is flat: bytes from address 0 on, all code" };

const SPURIOUS: Row<'static> = row! {
    "spurious" FLAG: "pthread_cond_wait may return without a signal"
};
/// By it numbers stand for executions in place of plans.
const WEAK: Row<'static> = row! { "weak" FLAG: "Numbers of executions: loads early, stores late" };

const STEPS: Row<'static> = row! { "steps" NUMBER "N" = "100000000": "With --weak: steps of each" };

/// A guest program, how it is read, and the size of its machine.
const GUEST: &[Row<'static>] = &[IMAGE, FLAT, SPURIOUS, HARTS_WANTED, PAGES];

/// The same, what it is run with, and by which plan.
const RUNNING: &[Row<'static>] = &[
    IMAGE,
    FLAT,
    SPURIOUS,
    HARTS,
    PAGES,
    row! { "rounds" NUMBER "N" = "1000": "Rounds: 0 to 4294967295" },
    WORKERS,
    INPUT,
    PROGRESS,
    row! { "quota" OPTION "PLAN" = "1000": "One row of quotas 1 to 1000000" },
    row! { "plan" OPTION "FILE": "The plan from a file, in place of --quota" },
    row! { "budget" NUMBER "N" = "1": "Length of a serial turn: 1 to 1000" },
    row! { "plan-number" NUMBER "N": "By plan N of the family, not by these three" },
    row! { "seed" WIDE "N" = "1": "Which family plan N is of" },
];

/// The same for many plans, and what is seen of each run.
const SEARCHING: &[Row<'static>] = &[
    IMAGE,
    FLAT,
    SPURIOUS,
    HARTS_WANTED,
    PAGES,
    row! { "rounds" NUMBER "N" = "10000": "Rounds: 0 to 4294967295" },
    WORKERS,
    INPUT,
    PROGRESS,
    SEED,
    SEE_ENDINGS,
    OBJECT,
];

// ---- what one subcommand takes

const RUN: &[Row<'static>] = &[
    row! { "show" OPTION "WHAT" = "report": "Print the report, output or harts" },
    row! { "no-trace" FLAG: "Print the report up to its trace" },
    row! { "strict" FLAG: "Exit with 4 where a hart doesn't end with value 0" },
];

const RECORD: &[Row<'static>] = &[
    row! { "out" ARGUMENT "OUT": "The file that the recording is written to" },
    row! { "every" NUMBER "N" = "0": "Registers after each N-th round; 0 never" },
    row! { "until-stopped" FLAG: "No round after all harts have stopped" },
];

const REPLAY: &[Row<'static>] = &[
    PAST,
    WORKERS,
    PROGRESS,
    row! { "every" NUMBER "N" = "64": "No effect: one question needs no checkpoint" },
    row! { "round" NUMBER "N": "The hart in this round, from 1 on" },
    row! { "hart" NUMBER "N" = "0": "Which hart, from 0 on" },
    row! { "count" WIDE "N" = "0": "After so many instructions of the round" },
    row! { "how-many" FLAG: "How many instructions it did in the round" },
    row! { "place" WIDE "N": "The hart before its instruction at this place" },
    row! { "see" REPEATED "ADDRESS" "LENGTH": "Bytes as the hart sees them; can be repeated" },
    OBJECT,
];

const WATCH: &[Row<'static>] = &[
    PAST,
    row! { "address" MAYBE "ADDRESS": "The address of the first byte: hexadecimal after 0x, or decimal" },
    row! { "length" MAYBE_WIDE "LENGTH": "How many bytes, in decimal" },
    row! { "see" REPEATED "ADDRESS" "LENGTH": "More bytes; can be repeated" },
    OBJECT,
    row! { "hart" NUMBER "N": "Accesses of this hart alone, from 0 on" },
    row! { "stores" FLAG: "Accesses that wrote alone" },
    row! { "pc" FLAG: "Each with the pc of its instruction" },
    row! { "from" NUMBER "N": "First round that is watched" },
    row! { "to" NUMBER "N": "Last round that is watched" },
    WORKERS,
    PROGRESS,
];

const MIGRATE: &[Row<'static>] = &[
    row! { "recording" ARGUMENT "RECORDING": "The file that dethart record or dethart migrate wrote" },
    row! { "out" ARGUMENT "OUT": "The file that the new recording is written to" },
];

const GDB: &[Row<'static>] = &[PAST];

const HUNT: &[Row<'static>] = &[
    row! { "plans" NUMBER "N" = "1000": "Plans: 1 to 4294967295" },
    row! { "first" NUMBER "N" = "0": "Number of the first plan" },
    FAIL_ON,
    row! { "until" OPTION "WHAT": "End with the first that ends so: bad or differ" },
    row! { "seconds" NUMBER "N": "Begin no plan after so many seconds" },
    WEAK,
    STEPS,
];

const SHRINK: &[Row<'static>] = &[
    row! { "plan-number" WANTED "N": "Number of the plan to make smaller" },
];

const MERGE: &[Row<'static>] = &[
    row! { "table" ARGUMENTS "TABLE": "A file that dethart hunt or dethart merge printed" },
    FAIL_ON,
];

const FENCES: &[Row<'static>] = &[
    row! { "plans" NUMBER "N" = "1000": "Executions: 1 to 4294967295" },
    row! { "first" NUMBER "N" = "0": "Number of the first execution" },
    row! { "steps" NUMBER "N" = "100000000": "Steps of an execution, at most" },
    row! { "fail-on" OPTION "WHAT" = "missing": "Exit with 5 or 4 on: missing or never" },
    row! { "until" OPTION "WHAT": "End with the first find: missing" },
    row! { "seconds" NUMBER "N": "Begin no number after so many seconds" },
    row! { "keep" OPTION "DIR": "Write each execution that is told to a file in DIR" },
    row! { "accept" OPTION "FILE": "Places that are known, and left out" },
    row! { "as-if-fence" REPEATED "PC": "As if a fence stood before it; can be repeated" },
];

const ALL: &[Row<'static>] = &[
    WORKERS,
    INPUT,
    PROGRESS,
    SEE_ENDINGS,
    OBJECT,
    row! { "steps" NUMBER "N" = "1000": "Instructions of a hart, at most" },
    row! { "nodes" NUMBER "N" = "100000": "Nodes of the search, at most" },
    row! { "seconds" NUMBER "N": "Search no longer than so many seconds" },
    row! { "keep" OPTION "DIR": "Write an execution of each ending to a file in DIR" },
    row! { "fences" FLAG: "Say of each fence whether it can be left out" },
];

const COMPARE: &[Row<'static>] = &[
    row! { "old" ARGUMENT "OLD": "The table of the old build" },
    row! { "new" ARGUMENT "NEW": "The table of the new build" },
];

const PLAN: &[Row<'static>] = &[
    row! { "number" NUMBER_ARGUMENT "N": "The number of the plan: 0 to 4294967295" },
    HARTS,
    SEED,
];

const DRAW: &[Row<'static>] = &[
    row! { "see" REPEATED "ADDRESS" "LENGTH": "Bytes whose accesses are drawn; can be repeated" },
    OBJECT,
    row! { "from" NUMBER "N": "First round that is drawn" },
    row! { "to" NUMBER "N": "Last round that is drawn" },
];

const TRACE: &[Row<'static>] = &[
    row! { "as" OPTION "FORM" = "perfetto": "The form: perfetto, the JSON of Chrome's trace events" },
];

const EXECUTION: &[Row<'static>] = &[WEAK, STEPS];

const CHECK: &[Row<'static>] = &[
    row! { "file" ARGUMENT "FILE": "An execution, as dethart execution prints it" },
];

/// The rows of a group.
pub(crate) fn rows_in<'a>(group: Group) -> &'a [Row<'a>]
    ensures { map row_told result.now ≡ rows_in group }
{
    match group {
        Group::Nothing => &[],
        Group::Guest => GUEST,
        Group::Running => RUNNING,
        Group::Searching => SEARCHING,
        Group::Run => RUN,
        Group::Record => RECORD,
        Group::Replay => REPLAY,
        Group::Watch => WATCH,
        Group::Migrate => MIGRATE,
        Group::Gdb => GDB,
        Group::Hunt => HUNT,
        Group::Shrink => SHRINK,
        Group::Merge => MERGE,
        Group::Fences => FENCES,
        Group::All => ALL,
        Group::Compare => COMPARE,
        Group::Plan => PLAN,
        Group::Draw => DRAW,
        Group::Trace => TRACE,
        Group::Execution => EXECUTION,
        Group::Check => CHECK,
    }
}
