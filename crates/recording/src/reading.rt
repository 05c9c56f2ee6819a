ghost use Rattle.std.specs.Prelude.{◌≡◌, IfOk, Ok};
ghost use Rattle.recording.specs.Grammar.{IsRecording, OneRecording, reading};
ghost use Rattle.recording.specs.Recorded.{Recorded};
ghost use Rattle.recording.specs.Views.{Gives, as_recorded};

use crate::cause::{Cause, ReadError};
use crate::fields::{byte_or, bytes_at, double_or, from_version_2, word_or};
use crate::lists::rounds_at;
use crate::recording::{Recording, RecordingFields};
use std::alloc::Global;

const MAGIC: u64 = 0x4345_5254_4544_5652;

/// Reads the fields of a text that is a recording as a whole.
fn read_fields(alloc: Global, text: &[u8]) -> Result<RecordingFields, ReadError>
    ensures { Gives as_recorded result (reading text.now) }
{
    let (_magic, rest) = double_or(
        text,
        Cause::NotARecording,
        Cause::NotARecording,
        MAGIC,
        MAGIC,
    )?;
    let (version, rest) = word_or(rest, Cause::Cut, Cause::Version, 1, 2)?;
    let (format, rest) = byte_or(rest, Cause::Cut, Cause::OutOfRange, 0, 1)?;
    let (harts, rest) = word_or(rest, Cause::Cut, Cause::OutOfRange, 1, 64)?;
    let (pages, rest) = word_or(rest, Cause::Cut, Cause::OutOfRange, 1, 16_384)?;
    let (rounds, rest) = word_or(rest, Cause::Cut, Cause::OutOfRange, 0, u32::MAX)?;
    let (budget, rest) = from_version_2(rest, version, 1, 1, 1000)?;
    let (every, rest) = from_version_2(rest, version, 0, 0, u32::MAX)?;
    let (image, rest) = bytes_at(alloc, rest)?;
    let (input, rest) = bytes_at(alloc, rest)?;
    let (plan, rest) = bytes_at(alloc, rest)?;
    let (checkpoints, rest) = rounds_at(alloc, rest, harts, every, rounds)?;
    if !rest.is_empty() {
        return Err(ReadError::Refused(Cause::BytesLeft));
    }
    Ok(RecordingFields {
        version,
        format,
        harts,
        pages,
        rounds,
        budget,
        every,
        image,
        input,
        plan,
        checkpoints,
    })
}

/// Reads a recording of version 1 or 2. No length in the text makes it ask for more memory than the text has bytes.
///
/// # Errors
///
/// The first cause in the order of the fields, and `OutOfMemory`.
pub fn read_recording(alloc: Global, text: &[u8]) -> Result<Recording, ReadError>
    // Which recording it is, or which cause.
    ensures exact { Gives (λ r. r) result (reading text.now) }
    // What is read has just this text.
    ensures found { IfOk result (λ r. IsRecording text.now r) }
    // Each recording is read from its text, unless memory runs out.
    ensures only { (r : Recorded) → IsRecording text.now r → Gives (λ s. s) result (Ok r) }
{
    Ok(Recording::of(read_fields(alloc, text)?))
}

/// No text is two recordings.
pub fn one_recording()
    ensures { OneRecording }
{}
