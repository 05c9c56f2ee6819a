ghost use Rattle.std.specs.Prelude.{◌≡◌, ◌++◌, OnOk};
ghost use Rattle.std.specs.Fmt.{decimal};
ghost use Rattle.hex.specs.Hex.{encode_lower};
ghost use Rattle.gdb_replies.specs.Words.{address_text, register_text, thread_text};

use hex::encode;
use itoa::write_digits;
use pages::OutOfMemory;

/// Adds bytes.
pub fn put(text: &mut Vec<u8>, bytes: &[u8]) -> Result<(), OutOfMemory>
    ensures { OnOk result (text.new.items ≡ text.old.items ++ bytes.now) }
{
    text.extend_from_slice(bytes)?;
    Ok(())
}

/// Adds a number in decimal.
pub(crate) fn put_number(text: &mut Vec<u8>, number: u64) -> Result<(), OutOfMemory>
    ensures { OnOk result (text.new.items ≡ text.old.items ++ decimal number) }
{
    let mut digits = [0; 20];
    let start = write_digits(number, &mut digits, 20);
    put(text, &digits[start..])
}

/// Adds two digits for each byte.
pub(crate) fn put_hex(text: &mut Vec<u8>, bytes: &[u8]) -> Result<(), OutOfMemory>
    ensures { OnOk result (text.new.items ≡ text.old.items ++ encode_lower bytes.now) }
{
    let alloc = *text.allocator();
    let digits = encode(alloc, bytes)?;
    put(text, digits.as_bytes())
}

/// Adds a register's value.
pub(crate) fn put_register(text: &mut Vec<u8>, value: u64) -> Result<(), OutOfMemory>
    ensures { OnOk result (text.new.items ≡ text.old.items ++ register_text value) }
{
    put_hex(text, value.to_le_bytes().as_slice())
}

/// Adds an address.
pub(crate) fn put_address(text: &mut Vec<u8>, address: u64) -> Result<(), OutOfMemory>
    ensures { OnOk result (text.new.items ≡ text.old.items ++ address_text address) }
{
    put_hex(text, address.to_be_bytes().as_slice())
}

/// Adds a thread's number.
pub(crate) fn put_thread(text: &mut Vec<u8>, thread: u32) -> Result<(), OutOfMemory>
    ensures { OnOk result (text.new.items ≡ text.old.items ++ thread_text thread) }
{
    put_hex(text, thread.to_be_bytes().as_slice())
}

/// Adds a number in decimal behind a word.
pub fn put_words(text: &mut Vec<u8>, word: &[u8], number: u64) -> Result<(), OutOfMemory>
    ensures { OnOk result (text.new.items ≡ text.old.items ++ (word.now ++ decimal number)) }
{
    put(text, word)?;
    put_number(text, number)
}

/// Adds an address behind a word.
pub(crate) fn put_addressed(
    text: &mut Vec<u8>,
    word: &[u8],
    address: u64,
) -> Result<(), OutOfMemory>
    ensures { OnOk result (text.new.items ≡ text.old.items ++ (word.now ++ address_text address)) }
{
    put(text, word)?;
    put_address(text, address)
}
