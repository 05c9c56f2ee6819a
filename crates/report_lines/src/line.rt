ghost use Rattle.std.specs.Prelude.{◌≡◌, ℕ, ◌+◌, ◌*◌, ◌/◌, ◌%◌, ◌≤◌, ◌<◌, List, [], ◌∷◌, ◌++◌, IfOk, OnOk, codes, length, take};
ghost use Rattle.std.specs.Fmt.{decimal};
ghost use Rattle.report_lines.specs.Text.{bytes_text, hex, hex_digit};

use itoa::write_digits;
use pages::OutOfMemory;
use std::alloc::Global;
use std::marker::Model;

/// How many bytes the line of 16 bytes of memory has: 8 digits, a blank, 32 digits and its end.
const ROW_BYTES: usize = 42;

/// Text on its way to a sink: bytes that stay until they are taken out.
#[derive(Drop)]
pub struct Line {
    bytes: Vec<u8>,
}

impl Model for Line {
    ghost Value = { List ℕ };

    ghost view = { λ l. l.bytes.items };
}

impl Line {
    /// No text; this takes no memory.
    pub fn new(alloc: Global) -> Self
        ensures { result ≡ [] }
    {
        Line {
            bytes: Vec::new(alloc),
        }
    }

    /// No text, with room for so many bytes.
    pub fn with_capacity(alloc: Global, bytes: usize) -> Result<Self, OutOfMemory>
        ensures { IfOk result (λ l. l ≡ []) }
    {
        Ok(Line {
            bytes: Vec::with_capacity(alloc, bytes)?,
        })
    }

    /// Drops the text, and keeps the memory.
    pub fn clear(&mut self)
        ensures { self.new ≡ [] }
    {
        self.bytes.clear();
    }

    /// The text so far.
    pub fn as_bytes(&self) -> &[u8]
        ensures { result.now ≡ self.now }
    {
        self.bytes.as_slice()
    }

    /// Adds bytes.
    #[inline]
    pub fn bytes(&mut self, bytes: &[u8]) -> Result<(), OutOfMemory>
        ensures { OnOk result (self.new ≡ self.old ++ bytes.now) }
    {
        match self.bytes.extend_from_slice(bytes) {
            Ok(()) => Ok(()),
            Err(_) => Err(OutOfMemory),
        }
    }

    /// Adds the first bytes of a slice, as many as asked for. It copies the others too, and cuts them off: a copy of a length
    /// that the compiler knows takes no call.
    #[inline]
    pub(crate) fn first_bytes(&mut self, bytes: &[u8], count: usize) -> Result<(), OutOfMemory>
        requires { count ≤ length bytes.now }
        ensures { OnOk result (self.new ≡ self.old ++ take count bytes.now) }
    {
        self.bytes(bytes)?;
        let end = self.bytes.len() - (bytes.len() - count);
        self.bytes.truncate(end);
        Ok(())
    }

    /// Adds the line of the 16 bytes from an address on. Room for it all is made at once.
    #[inline(always)]
    pub(crate) fn row(&mut self, address: u64, row: &[u8]) -> Result<(), OutOfMemory>
        requires { length row.now ≡ 16 }
        ensures { OnOk result (self.new ≡
            self.old ++ (hex 8 address ++ codes " " ++ bytes_text row.now ++ codes "\n")) }
    {
        let start = self.bytes.len();
        self.bytes(&[b' '; ROW_BYTES])?;
        write_row(&mut self.bytes[start..], address, row);
        Ok(())
    }

    /// Adds text.
    pub fn text(&mut self, text: &str) -> Result<(), OutOfMemory>
        ensures { OnOk result (self.new ≡ self.old ++ text.now) }
    {
        self.bytes(text.as_bytes())
    }

    /// Adds a number in decimal, without leading zeros.
    pub fn decimal(&mut self, number: u64) -> Result<(), OutOfMemory>
        ensures { OnOk result (self.new ≡ self.old ++ decimal number) }
    {
        let mut buffer = [0; 20];
        let start = write_digits(number, &mut buffer, 20);
        self.bytes(&buffer[start..])
    }

    /// Adds the low digits of a number in hexadecimal, lower case, as many as asked for.
    pub fn hex(&mut self, number: u64, digits: usize) -> Result<(), OutOfMemory>
        requires { digits ≤ 16 }
        ensures { OnOk result (self.new ≡ self.old ++ hex digits number) }
    {
        let mut buffer = [b'0'; 16];
        let text = &mut buffer[..digits];
        write_hex(text, number);
        self.bytes(text)
    }
}

/// Fills the buffer with the low digits of a number in hexadecimal.
#[inline]
pub(crate) fn write_hex(buffer: &mut [u8], number: u64)
    ensures { buffer.new ≡ hex (length buffer.old) number }
{
    let mut rest = number;
    let mut index = buffer.len();
    while index >= 2 {
        index -= 2;
        let (high, low) = digits_of((rest % 256) as u8);
        buffer[index + 1] = low;
        buffer[index] = high;
        rest /= 256;
    }
    if index == 1 {
        let (_, low) = digits_of((rest % 256) as u8);
        buffer[0] = low;
    }
}

/// Fills the buffer with the line of the 16 bytes from an address on.
#[inline(always)]
fn write_row(buffer: &mut [u8], address: u64, row: &[u8])
    requires buffer { length buffer.old ≡ 42 }
    requires row { length row.now ≡ 16 }
    ensures { buffer.new ≡ hex 8 address ++ codes " " ++ bytes_text row.now ++ codes "\n" }
{
    write_hex(&mut buffer[..8], address);
    buffer[8] = b' ';
    write_bytes(&mut buffer[9..41], row);
    buffer[41] = b'\n';
}

/// Fills the buffer with bytes, two digits each.
#[inline(always)]
pub(crate) fn write_bytes(buffer: &mut [u8], bytes: &[u8])
    requires { length buffer.old ≡ 2 * length bytes.now }
    ensures { buffer.new ≡ bytes_text bytes.now }
{
    for (index, byte) in bytes.iter().enumerate() {
        let (high, low) = digits_of(*byte);
        buffer[2 * index] = high;
        buffer[2 * index + 1] = low;
    }
}

/// The two hexadecimal digits of a byte.
#[inline]
fn digits_of(byte: u8) -> (u8, u8)
    ensures high { result.0 ≡ hex_digit (byte / 16) }
    ensures low { result.1 ≡ hex_digit (byte % 16) }
{
    let index = 2 * byte as usize;
    (PAIRS[index], PAIRS[index + 1])
}

/// The digits of all bytes. A table takes no branch, and one of pairs takes half as many steps as one of digits.
static PAIRS: [u8; 512] = *b"\
    000102030405060708090a0b0c0d0e0f101112131415161718191a1b1c1d1e1f\
    202122232425262728292a2b2c2d2e2f303132333435363738393a3b3c3d3e3f\
    404142434445464748494a4b4c4d4e4f505152535455565758595a5b5c5d5e5f\
    606162636465666768696a6b6c6d6e6f707172737475767778797a7b7c7d7e7f\
    808182838485868788898a8b8c8d8e8f909192939495969798999a9b9c9d9e9f\
    a0a1a2a3a4a5a6a7a8a9aaabacadaeafb0b1b2b3b4b5b6b7b8b9babbbcbdbebf\
    c0c1c2c3c4c5c6c7c8c9cacbcccdcecfd0d1d2d3d4d5d6d7d8d9dadbdcdddedf\
    e0e1e2e3e4e5e6e7e8e9eaebecedeeeff0f1f2f3f4f5f6f7f8f9fafbfcfdfeff";
