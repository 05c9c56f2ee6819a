ghost use Rattle.std.specs.Prelude.{◌≡◌, ℕ, ◌+◌, ◌≤◌, List, [], ◌++◌, length, drop, take};
ghost use Rattle.std.specs.Fmt.{decimal};
ghost use Rattle.report_lines.specs.Text.{hex};

use crate::line::write_hex;
use itoa::write_digits;
use std::marker::Model;

/// How many bytes stand after the text: at least as many as the longest line has.
const BEYOND: usize = 128;

/// How many bytes a tail has room for.
const SIZE: usize = 2 * BEYOND;

/// The end of a line, written from its last byte to its first: so the digits of a number are written where they stay, in
/// the order in which divisions give them, and no piece of the line asks for memory. Further bytes follow the text, so that a
/// block of one length has it all, whatever its own length is.
#[derive(Drop)]
pub struct Tail {
    buffer: [u8; SIZE],
    start: usize,
}

impl Model for Tail {
    ghost Value = { List ℕ };

    ghost view = { λ t. drop t.start t.buffer };

    ghost invariant = { λ t. t.start ≤ 256 };
}

// Each method sets `start` last, so that the next one finds it in a register: after a write to the buffer LLVM would load it
// again, since it doesn't see that the write stays in the buffer.
impl Tail {
    /// No text.
    #[inline]
    pub fn new() -> Self
        ensures { length result ≡ 128 }
    {
        Tail {
            buffer: [0; SIZE],
            start: BEYOND,
        }
    }

    /// Drops the text.
    #[inline]
    pub(crate) fn clear(&mut self)
        ensures { length self.new ≡ 128 }
    {
        self.start = BEYOND;
    }

    /// How many bytes the text has.
    #[inline]
    pub(crate) fn len(&self) -> usize
        requires { 128 ≤ length self.now }
        ensures { result + 128 ≡ length self.now }
    {
        BEYOND - self.start
    }

    /// The first bytes, some of them those after the text.
    #[inline]
    pub(crate) fn block(&self) -> &[u8]
        requires { 128 ≤ length self.now }
        ensures { result.now ≡ take 128 self.now }
    {
        &self.buffer[self.start..self.start + BEYOND]
    }

    /// Adds text at the front.
    #[inline]
    pub(crate) fn text(&mut self, text: &str)
        requires { length text.now + length self.old ≤ 256 }
        ensures { self.new ≡ text.now ++ self.old }
    {
        let start = self.start - text.len();
        self.buffer[start..self.start].copy_from_slice(text.as_bytes());
        self.start = start;
    }

    /// Adds a number in decimal at the front, without leading zeros.
    #[inline]
    pub(crate) fn decimal(&mut self, number: u64)
        requires { 20 + length self.old ≤ 256 }
        ensures text { self.new ≡ decimal number ++ self.old }
        ensures length { length self.new ≤ 20 + length self.old }
    {
        self.start = write_digits(number, &mut self.buffer, self.start);
    }

    /// Adds the low digits of a number in hexadecimal at the front, lower case, as many as asked for.
    #[inline]
    pub(crate) fn hex(&mut self, number: u64, digits: usize)
        requires { digits + length self.old ≤ 256 }
        ensures text { self.new ≡ hex digits number ++ self.old }
        ensures length { length self.new ≡ digits + length self.old }
    {
        let start = self.start - digits;
        write_hex(&mut self.buffer[start..self.start], number);
        self.start = start;
    }
}
