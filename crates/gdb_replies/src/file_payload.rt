ghost use Rattle.std.specs.Prelude.{◌≡◌, ◌++◌, OnOk, codes};
ghost use Rattle.std.specs.Fmt.{decimal};
ghost use Rattle.std.specs.List.{flat_map};
ghost use Rattle.std.specs.Int.{w32, w64, to_be_bytes};
ghost use Rattle.gdb_replies.specs.FileReplies.{bytes_text, file_text, status_text};
ghost use Rattle.gdb_replies.specs.Words.{address_text};

use crate::file_reply::FileReply;
use crate::text::{put, put_address, put_words};
use pages::OutOfMemory;

/// A regular file, which everybody may read.
const READABLE: u32 = 0o100444;

/// How many bytes a file's status has.
const STATUS_BYTES: u64 = 64;

/// Adds what is told of a file.
pub(crate) fn put_file(text: &mut Vec<u8>, reply: &FileReply<'_>) -> Result<(), OutOfMemory>
    ensures { OnOk result (text.new.items ≡ text.old.items ++ file_text reply.now) }
{
    match reply {
        FileReply::Done(number) => put_result(text, *number),
        FileReply::Failed(reason) => put_words(text, b"F-1,", u64::from(*reason)),
        FileReply::Status(size) => put_status(text, *size),
        FileReply::Bytes(bytes) => put_bytes(text, bytes),
    }
}

/// Adds a number, as a result.
fn put_result(text: &mut Vec<u8>, number: u64) -> Result<(), OutOfMemory>
    ensures { OnOk result (text.new.items ≡ text.old.items ++ (codes "F" ++ address_text number)) }
{
    put(text, b"F")?;
    put_address(text, number)
}

/// Adds bytes behind how many there are.
fn put_bytes(text: &mut Vec<u8>, bytes: &[u8]) -> Result<(), OutOfMemory>
    ensures { OnOk result (text.new.items ≡ text.old.items ++ bytes_text bytes.now) }
{
    put_result(text, bytes.len() as u64)?;
    put(text, b";")?;
    put(text, bytes)
}

/// Adds what is said of a file of this size.
fn put_status(text: &mut Vec<u8>, size: u64) -> Result<(), OutOfMemory>
    ensures { OnOk result (text.new.items ≡ text.old.items ++
        ((codes "F" ++ address_text 64) ++ (codes ";" ++ status_text size))) }
{
    put_result(text, STATUS_BYTES)?;
    put(text, b";")?;
    put_numbers(text, &[0, 0, READABLE, 1, 0, 0, 0])?;
    put_long_numbers(text, &[size, 512, 0])?;
    put_numbers(text, &[0, 0, 0])
}

/// Adds numbers of four bytes, of which the highest comes first.
fn put_numbers(text: &mut Vec<u8>, numbers: &[u32]) -> Result<(), OutOfMemory>
    ensures { OnOk result (text.new.items ≡
        text.old.items ++ flat_map (to_be_bytes w32) numbers.now) }
{
    for number in numbers {
        put(text, number.to_be_bytes().as_slice())?;
    }
    Ok(())
}

/// Adds numbers of eight bytes, of which the highest comes first.
fn put_long_numbers(text: &mut Vec<u8>, numbers: &[u64]) -> Result<(), OutOfMemory>
    ensures { OnOk result (text.new.items ≡
        text.old.items ++ flat_map (to_be_bytes w64) numbers.now) }
{
    for number in numbers {
        put(text, number.to_be_bytes().as_slice())?;
    }
    Ok(())
}
