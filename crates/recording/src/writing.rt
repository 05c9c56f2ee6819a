ghost use Rattle.std.specs.Prelude.{◌≡◌, ◌++◌, ℕ, Err, OnOk, map};
ghost use Rattle.std.specs.Int.{w32, w64, to_le_bytes};
ghost use mir.Syntax.{w8};
ghost use Rattle.host_io.specs.Taken.{WritesText};
ghost use Rattle.host_io.specs.declared.error.RunError.TheVariants as refusals;
ghost use Rattle.recording.specs.Fields.{bytes as length_and_bytes, each, spelled_each, where_due};
ghost use Rattle.recording.specs.Grammar.{any, from_version_2, hart_summary, is_due, checkpoint_after, number as between, recording, registers, summary};
ghost use Rattle.recording.specs.Views.{hart_view, checkpoint_view, registers_view, summary_view, as_recorded};

use crate::recording::{Checkpoint, HartSummary, Recording, RecordingFields, Summary};
use host_io::{RunError, Sink, put_all};
use std::alloc::{AllocError, Global};

/// Writes the text of a recording, which is read as the same recording.
///
/// # Errors
///
/// `OutOfMemory`: nothing is written then. `SinkFailed`: a beginning of the text is.
pub fn write_recording<S: Sink>(alloc: Global, r: &Recording, out: &mut S) -> Result<(), RunError>
    ensures writes { WritesText (recording.spelled r.now) (S.took out.old) (S.failures out.old)
        result
        (S.took out.new) (S.failures out.new) }
    ensures memory { result ≡ Err refusals.OutOfMemory → S.took out.new ≡ S.took out.old }
{
    let mut text = Vec::new(alloc);
    match put_recording(&mut text, r.fields()) {
        Ok(()) => put_all(out, text.as_slice()),
        Err(_) => Err(RunError::OutOfMemory),
    }
}

/// The number at the front of each recording: the text `RVDETREC`.
const MAGIC: u64 = 0x4345_5254_4544_5652;

/// The settings and inputs of a run, and what a recording has of its rounds.
#[tactic(auto, using(crate::proofs::Written::assoc))]
fn put_recording(text: &mut Vec<u8>, r: &RecordingFields) -> Result<(), AllocError>
    ensures { OnOk result (text.new.items ≡
        text.old.items ++ recording.spelled (as_recorded r.now)) }
{
    put_double(text, MAGIC)?;
    put_word(text, r.version)?;
    put_byte(text, r.format)?;
    put_word(text, r.harts)?;
    put_word(text, r.pages)?;
    put_word(text, r.rounds)?;
    put_from_version_2(text, r.version, r.budget)?;
    put_from_version_2(text, r.version, r.every)?;
    put_bytes(text, r.image.as_slice())?;
    put_bytes(text, r.input.as_slice())?;
    put_bytes(text, r.plan.as_slice())?;
    put_rounds(text, r.checkpoints.as_slice(), r.every)
}

/// A number of eight bytes.
fn put_double(text: &mut Vec<u8>, number: u64) -> Result<(), AllocError>
    ensures { OnOk result (text.new.items ≡ text.old.items ++ to_le_bytes w64 number) }
{
    text.extend_from_slice(&number.to_le_bytes())
}

/// A number of four bytes.
fn put_word(text: &mut Vec<u8>, number: u32) -> Result<(), AllocError>
    ensures { OnOk result (text.new.items ≡ text.old.items ++ to_le_bytes w32 number) }
{
    text.extend_from_slice(&number.to_le_bytes())
}

/// A number of one byte.
fn put_byte(text: &mut Vec<u8>, number: u8) -> Result<(), AllocError>
    ensures { OnOk result (text.new.items ≡ text.old.items ++ to_le_bytes w8 number) }
{
    text.extend_from_slice(&number.to_le_bytes())
}

/// A number of four bytes in version 2, and nothing before.
fn put_from_version_2(text: &mut Vec<u8>, version: u32, number: u32) -> Result<(), AllocError>
    ensures { OnOk result ((before low high : ℕ) → text.new.items ≡
        text.old.items ++ (from_version_2 version before (between w32 low high)).spelled number) }
{
    if version == 2 {
        return put_word(text, number);
    }
    Ok(())
}

/// A length of eight bytes, and as many bytes.
#[tactic(auto, using(crate::proofs::Written::assoc))]
fn put_bytes(text: &mut Vec<u8>, bytes: &[u8]) -> Result<(), AllocError>
    ensures { OnOk result (text.new.items ≡ text.old.items ++ length_and_bytes.spelled bytes.now) }
{
    put_double(text, bytes.len() as u64)?;
    text.extend_from_slice(bytes)
}

/// What a recording has of a hart.
#[tactic(auto, using(crate::proofs::Written::assoc))]
fn put_hart(text: &mut Vec<u8>, hart: &HartSummary) -> Result<(), AllocError>
    ensures { OnOk result (text.new.items ≡
        text.old.items ++ hart_summary.spelled (hart_view hart.now)) }
{
    put_double(text, hart.pc)?;
    put_double(text, hart.done)?;
    put_byte(text, hart.code)?;
    put_double(text, hart.value)
}

/// What a recording has of the harts, in hart order.
fn put_harts(text: &mut Vec<u8>, harts: &[HartSummary]) -> Result<(), AllocError>
    ensures { OnOk result (text.new.items ≡
        text.old.items ++ spelled_each 0 (λ _. hart_summary) (map hart_view harts.now)) }
{
    for hart in harts {
        put_hart(text, hart)?;
    }
    Ok(())
}

/// Registers of a hart.
fn put_registers(text: &mut Vec<u8>, values: &[u64]) -> Result<(), AllocError>
    ensures { OnOk result (text.new.items ≡
        text.old.items ++ spelled_each 1 (λ _. any w64) values.now) }
{
    for value in values {
        put_double(text, *value)?;
    }
    Ok(())
}

/// The same of the harts, in hart order.
fn put_all_registers(text: &mut Vec<u8>, harts: &[Vec<u64>]) -> Result<(), AllocError>
    ensures { OnOk result (text.new.items ≡ text.old.items ++
        spelled_each 0 (λ _. each 31 1 (λ _. any w64)) (map (λ r. r.items) harts.now)) }
{
    for values in harts {
        put_registers(text, values.as_slice())?;
    }
    Ok(())
}

/// The summary of a state.
#[tactic(auto, using(crate::proofs::Written::assoc))]
fn put_summary(text: &mut Vec<u8>, state: &Summary) -> Result<(), AllocError>
    ensures { OnOk result ((count : ℕ) → text.new.items ≡
        text.old.items ++ (summary count).spelled (summary_view state.now)) }
{
    put_double(text, state.output)?;
    put_double(text, state.trace)?;
    put_harts(text, state.harts.as_slice())
}

/// Registers, where they are due after a round.
fn put_due(
    text: &mut Vec<u8>,
    due: &Option<Vec<Vec<u64>>>,
    every: u32,
    round: u64,
) -> Result<(), AllocError>
    ensures { OnOk result ((count : ℕ) → text.new.items ≡ text.old.items ++
        (where_due (is_due every round) (registers count)).spelled (registers_view due.now)) }
{
    if every != 0 && round % u64::from(every) == 0 {
        return match due {
            Some(harts) => put_all_registers(text, harts.as_slice()),
            None => Ok(()),
        };
    }
    Ok(())
}

/// What a recording has of a round.
#[tactic(auto, using(crate::proofs::Written::assoc))]
fn put_checkpoint(
    text: &mut Vec<u8>,
    checkpoint: &Checkpoint,
    every: u32,
    round: u64,
) -> Result<(), AllocError>
    ensures { OnOk result ((count : ℕ) → text.new.items ≡
        text.old.items ++ (checkpoint_after count every round).spelled
        (checkpoint_view checkpoint.now)) }
{
    put_summary(text, &checkpoint.summary)?;
    put_due(text, &checkpoint.registers, every, round)
}

/// What a recording has of the rounds, of which the first is 1.
fn put_rounds(text: &mut Vec<u8>, checkpoints: &[Checkpoint], every: u32) -> Result<(), AllocError>
    ensures { OnOk result ((count : ℕ) → text.new.items ≡
        text.old.items ++ spelled_each 1 (checkpoint_after count every)
        (map checkpoint_view checkpoints.now)) }
{
    for (index, state) in checkpoints.iter().enumerate() {
        put_checkpoint(text, state, every, index as u64 + 1)?;
    }
    Ok(())
}
