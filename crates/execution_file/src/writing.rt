ghost use Rattle.std.specs.Prelude.{◌≡◌, ◌++◌, ◌<◌, ◌-◌, ◌^◌, Err, OnOk, codes, length, map, slice_index};
ghost use Rattle.std.specs.Fmt.{decimal};
ghost use Rattle.host_io.specs.Taken.{WritesText};
ghost use Rattle.host_io.specs.declared.error.RunError.TheVariants as refusals;
ghost use Rattle.execution_file.specs.Grammar.{bytes as counted_bytes, double, execution, hart_lines, hart_turn, is_line_end, number_of_flag};
ghost use Rattle.execution_file.specs.Formats.{broken, byte, counted, hex_digit, spelled_after, spelled_each, spelled_list};
ghost use Rattle.execution_file.specs.Views.{as_recorded, hart_view, turn_view};

use crate::file::{ExecutionFile, HartDeeds, Turn};
use host_io::{RunError, Sink, put_all};
use itoa::write_digits;
use std::alloc::{AllocError, Global};

/// Writes the text of an execution, which is read as the same execution.
///
/// # Errors
///
/// `OutOfMemory`: nothing is written then. `SinkFailed`: a beginning of the text is.
pub fn write_execution<S: Sink>(
    alloc: Global,
    file: &ExecutionFile,
    out: &mut S,
) -> Result<(), RunError>
    ensures writes { WritesText (execution.spelled (as_recorded file.now)) (S.took out.old)
        (S.failures out.old) result
        (S.took out.new) (S.failures out.new) }
    ensures memory { result ≡ Err refusals.OutOfMemory → S.took out.new ≡ S.took out.old }
{
    let mut text = Vec::new(alloc);
    match put_file(&mut text, file) {
        Ok(()) => put_all(out, text.as_slice()),
        Err(_) => Err(RunError::OutOfMemory),
    }
}

/// All parts of an execution.
fn put_file(text: &mut Vec<u8>, file: &ExecutionFile) -> Result<(), AllocError>
    ensures { OnOk result (text.new.items ≡
        text.old.items ++ execution.spelled (as_recorded file.now)) }
{
    put_head(text, flag_number(file.flat), file.pages)?;
    put_named_bytes(text, b"\nimage ", file.image.as_slice())?;
    put_named_bytes(text, b"input ", file.input.as_slice())?;
    put_harts(text, file.harts.as_slice())?;
    put_named_turns(text, b"calls", file.calls.as_slice())?;
    put_named_turns(text, b"order", file.order.as_slice())
}

/// The number that stands for yes or no.
fn flag_number(flag: bool) -> u64
    ensures { result ≡ number_of_flag flag }
{
    if flag { 1 } else { 0 }
}

/// The first line, and the settings but for the line end of the last.
fn put_head(text: &mut Vec<u8>, flat: u64, pages: u32) -> Result<(), AllocError>
    ensures { OnOk result (text.new.items ≡ text.old.items ++
        (codes "execution 1\nflat " ++ (decimal flat ++ (codes "\npages " ++ decimal pages)))) }
{
    put(text, b"execution 1\nflat ")?;
    put_number(text, flat)?;
    put_pages(text, pages)
}

/// The number of pages, behind the line end of what stands before it.
#[tactic(auto, using(crate::proofs::Written::assoc))]
fn put_pages(text: &mut Vec<u8>, pages: u32) -> Result<(), AllocError>
    ensures { OnOk result (text.new.items ≡
        text.old.items ++ (codes "\npages " ++ decimal pages)) }
{
    put(text, b"\npages ")?;
    put_number(text, u64::from(pages))
}

/// A word, the number of bytes, and their lines.
#[tactic(auto, using(crate::proofs::Written::assoc))]
fn put_named_bytes(text: &mut Vec<u8>, word: &[u8], bytes: &[u8]) -> Result<(), AllocError>
    ensures { OnOk result (text.new.items ≡
        text.old.items ++ (word.now ++ counted_bytes.spelled bytes.now)) }
{
    put(text, word)?;
    put_bytes(text, bytes)
}

/// A word, turns, and the end of their line.
#[tactic(auto, using(crate::proofs::Written::assoc))]
fn put_named_turns(text: &mut Vec<u8>, word: &[u8], turns: &[Turn]) -> Result<(), AllocError>
    ensures { OnOk result (text.new.items ≡
        text.old.items ++ (word.now ++ spelled_list hart_turn (map turn_view turns.now))) }
{
    put(text, word)?;
    put_turns(text, turns)
}

/// Bytes as they are.
fn put(text: &mut Vec<u8>, bytes: &[u8]) -> Result<(), AllocError>
    ensures { OnOk result (text.new.items ≡ text.old.items ++ bytes.now) }
{
    text.extend_from_slice(bytes)
}

/// A number in decimal.
fn put_number(text: &mut Vec<u8>, number: u64) -> Result<(), AllocError>
    ensures { OnOk result (text.new.items ≡ text.old.items ++ decimal number) }
{
    let mut room = [0; 20];
    let start = write_digits(number, &mut room, 20);
    put(text, &room[start..])
}

/// A hexadecimal digit.
fn hex_digit(digit: u8) -> u8
    requires { digit < 16 }
    ensures { result ≡ hex_digit digit }
{
    if digit < 10 { 48 + digit } else { 87 + digit }
}

/// A byte in two digits.
fn put_byte(text: &mut Vec<u8>, value: u8) -> Result<(), AllocError>
    ensures { OnOk result (text.new.items ≡ text.old.items ++ byte.spelled value) }
{
    put(text, &[hex_digit(value / 16), hex_digit(value % 16)])
}

/// One of some bytes, and the end of its line.
fn put_byte_of_line(text: &mut Vec<u8>, bytes: &[u8], index: usize) -> Result<(), AllocError>
    requires { index < length bytes.now }
    ensures { OnOk result (text.new.items ≡ text.old.items ++
        (broken (is_line_end (length bytes.now) index) byte).spelled
        (slice_index bytes.now index)) }
{
    put_byte(text, bytes[index])?;
    if index + 1 == bytes.len() || (index + 1) % 32 == 0 {
        return put(text, b"\n");
    }
    Ok(())
}

/// The number of bytes, and their lines.
#[tactic(auto, using(crate::proofs::Written::assoc))]
fn put_bytes(text: &mut Vec<u8>, bytes: &[u8]) -> Result<(), AllocError>
    ensures { OnOk result (text.new.items ≡ text.old.items ++ counted_bytes.spelled bytes.now) }
{
    put_count(text, bytes.len() as u64)?;
    put_lines(text, bytes)
}

/// The lines of bytes.
fn put_lines(text: &mut Vec<u8>, bytes: &[u8]) -> Result<(), AllocError>
    ensures { OnOk result (text.new.items ≡ text.old.items ++
        spelled_each 0 (λ i. broken (is_line_end (length bytes.now) i) byte) bytes.now) }
{
    for (index, _) in bytes.iter().enumerate() {
        put_byte_of_line(text, bytes, index)?;
    }
    Ok(())
}

/// A number after a byte that says that it is there.
fn put_after(text: &mut Vec<u8>, sign: u8, number: Option<u64>) -> Result<(), AllocError>
    ensures { OnOk result (text.new.items ≡ text.old.items ++ spelled_after sign double number) }
{
    match number {
        Some(number) => {
            text.push(sign)?;
            put_number(text, number)
        }
        None => Ok(()),
    }
}

/// A hart's turn.
#[tactic(auto, using(crate::proofs::Written::assoc))]
fn put_turn(text: &mut Vec<u8>, turn: &Turn) -> Result<(), AllocError>
    ensures { OnOk result (text.new.items ≡ text.old.items
        ++ hart_turn.spelled (turn_view turn.now)) }
{
    put_number(text, u64::from(turn.hart))?;
    put_after(text, b':', turn.number)
}

/// Turns, each after a blank, and the end of their line.
fn put_turns(text: &mut Vec<u8>, turns: &[Turn]) -> Result<(), AllocError>
    ensures { OnOk result (text.new.items ≡
        text.old.items ++ spelled_list hart_turn (map turn_view turns.now)) }
{
    for turn in turns {
        put(text, b" ")?;
        put_turn(text, turn)?;
    }
    put(text, b"\n")
}

/// Numbers, each after a blank, and the end of their line.
fn put_numbers(text: &mut Vec<u8>, numbers: &[u64]) -> Result<(), AllocError>
    ensures { OnOk result (text.new.items ≡ text.old.items ++ spelled_list double numbers.now) }
{
    for number in numbers {
        put(text, b" ")?;
        put_number(text, *number)?;
    }
    let ended = put(text, b"\n");
    ended
}

/// A hart's number, how many instructions it does, and how it ends.
#[tactic(auto, using(crate::proofs::Written::assoc))]
fn put_hart_line(
    text: &mut Vec<u8>,
    index: u64,
    steps: u64,
    code: u8,
    value: Option<u64>,
) -> Result<(), AllocError>
    ensures { OnOk result (text.new.items ≡ text.old.items ++ (codes "hart " ++ decimal index ++
        (codes " steps " ++ decimal steps ++ (codes " stop " ++ decimal code
        ++ spelled_after 32 double value)))) }
{
    put(text, b"hart ")?;
    put_number(text, index)?;
    put(text, b" steps ")?;
    put_number(text, steps)?;
    put(text, b" stop ")?;
    put_number(text, u64::from(code))?;
    put_after(text, b' ', value)
}

/// What a hart does.
fn put_hart(text: &mut Vec<u8>, part: &HartDeeds, index: u64) -> Result<(), AllocError>
    ensures { OnOk result (text.new.items ≡
        text.old.items ++ (hart_lines index).spelled (hart_view part.now)) }
{
    put_hart_line(text, index, part.steps, part.code, part.value)?;
    put(text, b"\nread")?;
    put_numbers(text, part.reads.as_slice())
}

/// The number of harts, and what each does.
#[tactic(auto, using(crate::proofs::Written::assoc))]
fn put_harts(text: &mut Vec<u8>, harts: &[HartDeeds]) -> Result<(), AllocError>
    ensures { OnOk result (text.new.items ≡ text.old.items ++ (codes "harts " ++
        (counted (2 ^ 64 - 1) (λ n i. hart_lines i)).spelled (map hart_view harts.now))) }
{
    put(text, b"harts ")?;
    put_count(text, harts.len() as u64)?;
    put_each_hart(text, harts)
}

/// A number, and the end of its line.
#[tactic(auto, using(crate::proofs::Written::assoc))]
fn put_count(text: &mut Vec<u8>, count: u64) -> Result<(), AllocError>
    ensures { OnOk result (text.new.items ≡ text.old.items ++ (decimal count ++ codes "\n")) }
{
    put_number(text, count)?;
    put(text, b"\n")
}

/// What each hart does.
fn put_each_hart(text: &mut Vec<u8>, harts: &[HartDeeds]) -> Result<(), AllocError>
    ensures { OnOk result (text.new.items ≡
        text.old.items ++ spelled_each 0 hart_lines (map hart_view harts.now)) }
{
    for (index, part) in harts.iter().enumerate() {
        put_hart(text, part, index as u64)?;
    }
    Ok(())
}
