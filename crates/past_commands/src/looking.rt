//! What `replay` answers of an execution.
ghost use Rattle.std.specs.Prelude.{◌≡◌, IfErr, IfOk};
ghost use Rattle.execution_file.specs.Views.{as_recorded};
ghost use Rattle.past_commands.specs.Answers.{all_bytes};
ghost use Rattle.past_commands.specs.Executions.{IsCheckedAnswer, IsExecutionAnswer, before_text, found_text, look_at, step_asked};
ghost use Rattle.past_commands.specs.Refused.{EndsExecutionReplay, EndsSeeing};

use crate::answer::{Answer, number_line, word_line};
use crate::checked::check_answer;
use crate::executions::{refuse_rounds, refuse_workers};
use command_line::Replay;
use execution_commands::{is_allowed, read_execution_text};
use execution_file::ExecutionFile;
use execution_scripts::{Before, Checked, HartStep, Moment, bytes_at, check_file, moment_of};
use hunt_table::{SeenRange, add_ranges};
use pages::OutOfMemory;
use program_files::{CommandFailure, ExitStatus, NamedBytes, named_bytes, seen_ranges};
use report_lines::{Line, hart_lines};
use std::alloc::Global;

/// The answer to what a line asks of the execution that a text says: whether RVWMO allows it, or, where it does, the hart that is asked
/// for, and bytes as that sees them.
pub(crate) fn replay_execution(
    alloc: Global,
    text: &[u8],
    asked: &Replay<'_>,
) -> Result<Answer, CommandFailure>
    ensures answers { IfOk result (IsExecutionAnswer text.now asked.now) }
    ensures errors { IfErr result (EndsExecutionReplay text.now asked.now) }
{
    let file = read_execution_text(alloc, text)?;
    refuse_rounds(asked.round.is_some())?;
    refuse_workers(asked.workers)?;
    let checked = check_file(alloc, &file, step_asked(asked.hart, asked.place))?;
    answer_checked(alloc, &file, &checked, asked)
}

/// The step of a hart at a place; no execution has a hart of a greater number than fits there.
fn step_asked(hart: u32, place: Option<u64>) -> Option<HartStep>
    ensures { result ≡ step_asked hart place }
{
    match place {
        Some(number) => Some(HartStep {
            hart: u8::try_from(hart).unwrap_or(u8::MAX),
            number,
        }),
        None => None,
    }
}

/// The answer by what was found of the execution.
fn answer_checked(
    alloc: Global,
    file: &ExecutionFile,
    checked: &Checked,
    asked: &Replay<'_>,
) -> Result<Answer, CommandFailure>
    ensures answers { IfOk result (IsCheckedAnswer (as_recorded file.now) asked.now checked.now) }
    ensures errors { IfErr result (EndsSeeing (as_recorded file.now) asked.now) }
{
    if asked.place.is_none() || !is_allowed(checked) {
        return Ok(check_answer(alloc, checked)?);
    }
    let NamedBytes { bytes, fault } = named_bytes(
        alloc,
        &file.image,
        file.pages,
        &asked.seen,
        &asked.objects,
    )?;
    match fault {
        Some(fault) => Err(CommandFailure::Naming(fault)),
        None => {
            let ranges = seen_ranges(alloc, &bytes, &asked.objects)?;
            Ok(Answer {
                text: found_line(alloc, checked, asked.hart, &ranges)?,
                status: ExitStatus::Done,
            })
        }
    }
}

/// The lines of the hart before its step, with a line for each of these ranges of memory as it sees them there.
fn found_line(
    alloc: Global,
    checked: &Checked,
    hart: u32,
    ranges: &[SeenRange],
) -> Result<Line, OutOfMemory>
    ensures { IfOk result (λ l.
        l ≡ found_text hart ranges.now checked.now checked.now.sights.before) }
{
    match &checked.sights.before {
        Some(before) => before_line(alloc, checked, hart, before, ranges),
        None => word_line(alloc, "none\n"),
    }
}

fn before_line(
    alloc: Global,
    checked: &Checked,
    hart: u32,
    before: &Before,
    ranges: &[SeenRange],
) -> Result<Line, OutOfMemory>
    ensures { IfOk result (λ l. l ≡ before_text hart ranges.now checked.now before.now) }
{
    let moment = moment_of(checked.execution.events(), &checked.order, before.index);
    let seen = bytes_of(alloc, checked, &moment, ranges)?;
    let mut line = number_line(alloc, "position ", moment.position as u64)?;
    hart_lines(&mut line, u64::from(hart), &before.hart)?;
    add_ranges(&mut line, ranges, &seen)?;
    Ok(line)
}

/// The bytes of these ranges at a moment, one after the other.
fn bytes_of(
    alloc: Global,
    checked: &Checked,
    moment: &Moment,
    ranges: &[SeenRange],
) -> Result<Vec<u8>, OutOfMemory>
    ensures { IfOk result (λ v. v.items ≡ all_bytes (look_at checked.now moment.now) ranges.now) }
{
    let events = checked.execution.events();
    let mut all = Vec::new(alloc);
    for range in ranges {
        let bytes = bytes_at(
            alloc,
            &checked.opening,
            events,
            &checked.order,
            moment,
            range.address,
            range.length,
        )?;
        all.extend_from_slice(&bytes)?;
    }
    Ok(all)
}
