ghost use Rattle.std.specs.Prelude.{◌≡◌, IfOk, Ok};
ghost use Rattle.execution_file.specs.Grammar.{IsExecution, OneExecution, execution, flag, reading, taken_first_line};
ghost use Rattle.execution_file.specs.Recorded.{Recorded};
ghost use Rattle.execution_file.specs.Views.{Gives, as_recorded};

use crate::bytes::bytes_at;
use crate::cause::{Cause, ReadError};
use crate::file::ExecutionFile;
use crate::lists::{harts_at, turns_at};
use crate::numbers::number_at;
use crate::words::{refused, word_at, word_or};
use std::alloc::Global;

/// 1 for yes and 0 for no, and what follows it.
fn flag_at(bytes: &[u8]) -> Result<(bool, &[u8]), ReadError>
    ensures { Gives (λ x. (x.0, x.1.now)) result (flag.taken bytes.now) }
{
    let (number, rest) = number_at(bytes, 1)?;
    Ok((number == 1, rest))
}

/// What follows the first line.
fn first_line_at(text: &[u8]) -> Result<&[u8], ReadError>
    ensures { Gives (λ x. x.now) result (taken_first_line text.now) }
{
    let rest = word_or(
        text,
        Cause::NotAnExecution,
        Cause::NotAnExecution,
        b"execution ",
    )?;
    word_or(rest, Cause::Version, Cause::Version, b"1\n")
}

/// The parts at the front, and what follows them.
fn parts_at(alloc: Global, text: &[u8]) -> Result<(ExecutionFile, &[u8]), ReadError>
    ensures { Gives (λ x. (as_recorded x.0, x.1.now)) result (execution.taken text.now) }
{
    let rest = first_line_at(text)?;
    let (flat, rest) = flag_at(word_at(rest, b"flat ")?)?;
    let (pages, rest) = number_at(word_at(rest, b"\npages ")?, u64::from(u32::MAX))?;
    let (image, rest) = bytes_at(alloc, word_at(rest, b"\nimage ")?)?;
    let (input, rest) = bytes_at(alloc, word_at(rest, b"input ")?)?;
    let (harts, rest) = harts_at(alloc, word_at(rest, b"harts ")?)?;
    let (calls, rest) = turns_at(alloc, word_at(rest, b"calls")?)?;
    let (order, rest) = turns_at(alloc, word_at(rest, b"order")?)?;
    Ok((
        ExecutionFile {
            flat,
            pages: pages as u32,
            image,
            input,
            harts,
            calls,
            order,
        },
        rest,
    ))
}

/// Reads the parts of a text that is an execution as a whole.
fn read_whole(alloc: Global, text: &[u8]) -> Result<ExecutionFile, ReadError>
    ensures { Gives as_recorded result (reading text.now) }
{
    let (file, rest) = parts_at(alloc, text)?;
    if !rest.is_empty() {
        return Err(refused(Cause::TextLeft, rest));
    }
    Ok(file)
}

/// Reads an execution of version 1. No number in the text makes it ask for more memory than the text has bytes.
///
/// # Errors
///
/// The first cause in the order of the parts, with the position where it stands, and `OutOfMemory`.
pub fn read_execution(alloc: Global, text: &[u8]) -> Result<ExecutionFile, ReadError>
    // Which execution it is, or which cause.
    ensures exact { Gives as_recorded result (reading text.now) }
    // What is read has just this text.
    ensures found { IfOk result (λ r. IsExecution text.now (as_recorded r)) }
    // Each execution is read from its text, unless memory runs out.
    ensures only { (r : Recorded) → IsExecution text.now r → Gives as_recorded result (Ok r) }
{
    read_whole(alloc, text)
}

/// No text is two executions.
pub fn one_execution()
    ensures { OneExecution }
{}
