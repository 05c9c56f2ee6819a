//! Lines that repeat a run which was found. They are told when what was asked for is out already, so it is no failure where they
//! can't be written, or there is no memory for them.

use command_line::{Hunt, Program, Shrink};
use hunt_table::Table;
use machine::Unobserved;
use pages::OutOfMemory;
use plan_hunt::{HartEnding, Row};
use program_files::{
    AskedPlan, ProgramFiles, World, family_plan, guest_files, needed_rounds, settings_of,
};
use round_planner::{Family, Plan};
use round_schedule::MOST_HARTS;
use std::alloc::{AllocError, Global};
use std::sync::Wait;
use std::thread::Threads;

/// The line that runs a program by the number of an ending, or writes its execution, but for the number.
pub(crate) fn ending_line_of(alloc: Global, asked: &Hunt<'_>) -> Result<String, AllocError> {
    if asked.weak {
        weak_line_of(alloc, &asked.search.program, asked.steps)
    } else {
        let program = &asked.search.program;
        line_of(alloc, "run", program, program.rounds)
    }
}

/// Says on standard error, for each ending of a table, the line that runs the program by its first plan, or that writes its first
/// execution.
pub(crate) fn tell_endings<W: World, R: Threads + Wait + Sync>(
    threads: &R,
    alloc: Global,
    asked: &Hunt<'_>,
    files: &ProgramFiles,
    rows: &[Row],
    world: &W,
) -> Result<(), AllocError> {
    let seed = asked.search.seed;
    for (index, row) in rows.iter().enumerate() {
        let program = line_of_row(threads, alloc, asked, files, row)?;
        let (number, first) = (index.saturating_add(1), row.first);
        world.tell(format_args!("ending {number}: {program} --plan-number {first} --seed {seed}"));
    }
    Ok(())
}

/// The line that leads to the ending of a row, but for the number and the seed. A run whose harts all stop is given no more rounds than
/// it needs.
fn line_of_row<R: Threads + Wait + Sync>(
    threads: &R,
    alloc: Global,
    asked: &Hunt<'_>,
    files: &ProgramFiles,
    row: &Row,
) -> Result<String, AllocError> {
    let program = &asked.search.program;
    let family = Family {
        seed: asked.search.seed,
        harts: program.harts,
    };
    // A hunt with rows has such a number of harts.
    let is_family = family.harts >= 1 && family.harts <= MOST_HARTS;
    if asked.weak || !is_family || !have_stopped(row.ending.stops()) {
        return ending_line_of(alloc, asked);
    }
    let mut rounds = program.rounds;
    if let Ok(plan) = family_plan(alloc, family, row.first) {
        rounds = rounds_for(threads, alloc, program, files, &plan);
    }
    line_of(alloc, "run", program, rounds)
}

/// Whether no hart runs when the rounds are over.
fn have_stopped(stops: &[HartEnding]) -> bool {
    stops
        .iter()
        .all(|stop| matches!(*stop, HartEnding::Stopped(_)))
}

/// How many rounds a run of a program by a plan needs; all that the line gives where that can't be told.
fn rounds_for<R: Threads + Wait + Sync>(
    threads: &R,
    alloc: Global,
    program: &Program<'_>,
    files: &ProgramFiles,
    plan: &AskedPlan,
) -> u32 {
    let settings = settings_of(program, plan);
    let guest = guest_files(files);
    needed_rounds(threads, alloc, &guest, &settings, &mut Unobserved).unwrap_or(program.rounds)
}

/// The same of a table that was merged, which doesn't know the program's file nor all options of the hunts, and where harts loop or run on.
pub(crate) fn tell_merged<W: World>(table: &Table, world: &W) {
    let seed = table.header.seed;
    let (command, weak) = if table.header.is_weak {
        ("execution", " --weak")
    } else {
        ("run", "")
    };
    for (index, row) in table.rows.iter().enumerate() {
        let (number, first) = (index.saturating_add(1), row.first);
        let harts = row.ending.stops().len();
        world.tell(format_args!(
            "ending {number}: dethart {command} IMAGE --harts {harts}{weak} --plan-number {first} --seed {seed} with the hunts' other options"
        ));
        if row.ending.stops().contains(&HartEnding::Loops) {
            world.tell(format_args!(
                "ending {number}: a hart loops: it runs for ever under this plan"
            ));
        }
        if row.ending.stops().contains(&HartEnding::Runs) {
            world.tell(format_args!(
                "ending {number}: a hart runs on: what it does after the last round isn't known"
            ));
        }
    }
}

/// Says on standard error how far executions were followed that still ran then, if there are some.
pub(crate) fn tell_weak_running<W: World>(asked: &Hunt<'_>, rows: &[Row], world: &W) {
    let runs = |row: &Row| row.ending.stops().contains(&HartEnding::Runs);
    if asked.weak && rows.iter().any(runs) {
        tell_bounds(asked.steps, asked.search.program.rounds, world);
    }
}

/// Says on standard error how far executions were followed.
pub fn tell_bounds<W: World>(steps: u32, rounds: u32, world: &W) {
    world.tell(format_args!(
        "running: an execution was followed up to --steps {steps} and --rounds {rounds}, and what harts do then isn't known"
    ));
}

/// Says on standard error the budget of the plan that was printed, and the line that runs the program by it, once it is in a file.
pub(crate) fn tell_shrunk<W: World, R: Threads + Wait + Sync>(
    threads: &R,
    alloc: Global,
    asked: &Shrink<'_>,
    files: &ProgramFiles,
    plan: &Plan,
    world: &W,
) -> Result<(), OutOfMemory> {
    let (program, budget) = (&asked.search.program, plan.budget());
    let asked_plan = AskedPlan {
        text: plan.text(alloc)?,
        budget,
        is_file: false,
    };
    let rounds = rounds_for(threads, alloc, program, files, &asked_plan);
    let line = line_of(alloc, "run", program, rounds)?;
    world.tell(format_args!("budget {budget}\n{line} --plan FILE --budget {budget}"));
    Ok(())
}

/// Says on standard error the budget of a plan of the family, and the line that runs any program by it.
pub(crate) fn tell_plan<W: World>(asked: &command_line::Plan, budget: u32, world: &W) {
    let harts = asked.harts;
    world.tell(format_args!(
        "budget {budget}\ndethart run IMAGE --harts {harts} --plan FILE --budget {budget}"
    ));
}

/// The line that writes an execution of a program, of so many steps at most, but for its number: each option that the outcome depends on.
///
/// # Errors
///
/// The allocator's alone.
pub fn weak_line_of(
    alloc: Global,
    program: &Program<'_>,
    steps: u32,
) -> Result<String, AllocError> {
    let line = line_of(alloc, "execution", program, program.rounds)?;
    format!(in alloc; "{line} --steps {steps} --weak")
}

/// The line of a command on a program for so many rounds, but for its plan: each option that the outcome depends on.
///
/// # Errors
///
/// The allocator's alone.
pub fn line_of(
    alloc: Global,
    command: &str,
    program: &Program<'_>,
    rounds: u32,
) -> Result<String, AllocError> {
    let image = quoted_path(alloc, program.image)?;
    let flat = if program.flat { " --flat" } else { "" };
    let spurious = if program.spurious { " --spurious" } else { "" };
    let (harts, pages) = (program.harts, program.pages);
    let mut line = format!(in alloc;
        "dethart {command} {image}{flat}{spurious} --harts {harts} --pages {pages} --rounds {rounds}"
    )?;
    if let Some(path) = program.input {
        let input = quoted_path(alloc, path)?;
        line.push_str(" --input ")?;
        line.push_str(input.as_str())?;
    }
    Ok(line)
}

/// A path as a shell takes it. One that begins as an option does is told with its folder.
fn quoted_path(alloc: Global, path: &str) -> Result<String, AllocError> {
    if path.as_bytes().starts_with(b"-") {
        let path = format!(in alloc; "./{path}")?;
        return quoted(alloc, path.as_str());
    }
    quoted(alloc, path)
}

/// A word as a shell takes it: as it is, where it has letters, digits and the like alone, and else between quotes.
///
/// # Errors
///
/// The allocator's alone.
pub fn quoted(alloc: Global, word: &str) -> Result<String, AllocError> {
    if !word.is_empty() && word.bytes().all(is_plain) {
        return Ok(String::from_str(alloc, word)?);
    }
    let mut text = String::from_str(alloc, "'")?;
    for (index, part) in word.split('\'').enumerate() {
        if index > 0 {
            text.push_str("'\\''")?;
        }
        text.push_str(part)?;
    }
    text.push_str("'")?;
    Ok(text)
}

/// Whether a shell takes the byte as it is.
fn is_plain(byte: u8) -> bool {
    byte.is_ascii_alphanumeric() || b"/._-+,:@%".contains(&byte)
}
