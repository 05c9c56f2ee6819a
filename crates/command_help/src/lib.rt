//! The texts of `--help` of `dethart` and of each of its subcommands.
#![tactic(auto)]

mod endings;
mod executions;
mod families;
mod fences;
mod overview;
mod recordings;
mod runs;

pub use overview::{ABOUT, AFTER_HELP};

/// What the help of the subcommand of a name says after its options.
pub fn after_help_of<'a>(name: &str) -> &'a str {
    match name {
        "run" => runs::RUN_AFTER_HELP,
        "order" => runs::ORDER_AFTER_HELP,
        "record" => runs::RECORD_AFTER_HELP,
        "replay" => recordings::REPLAY_AFTER_HELP,
        "watch" => recordings::WATCH_AFTER_HELP,
        "migrate" => recordings::MIGRATE_AFTER_HELP,
        "gdb" => recordings::GDB_AFTER_HELP,
        "hunt" => families::HUNT_AFTER_HELP,
        "shrink" => families::SHRINK_AFTER_HELP,
        "merge" => families::MERGE_AFTER_HELP,
        "fences" => fences::FENCES_AFTER_HELP,
        "all" => endings::ALL_AFTER_HELP,
        "compare" => families::COMPARE_AFTER_HELP,
        "plan" => families::PLAN_AFTER_HELP,
        "draw" => runs::DRAW_AFTER_HELP,
        "trace" => runs::TRACE_AFTER_HELP,
        "execution" => executions::EXECUTION_AFTER_HELP,
        "check" => executions::CHECK_AFTER_HELP,
        _ => "",
    }
}
