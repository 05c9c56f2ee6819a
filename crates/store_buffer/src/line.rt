ghost use Rattle.std.specs.Prelude.{◌≡◌, ◌+◌, ◌-◌, ◌*◌, ◌^◌, ◌<◌, ◌≤◌, ℕ, if◌then◌else◌, Some};
ghost use Rattle.pages.specs.Memory.{byte_of, in_range, width_bytes};
ghost use Rattle.store_buffer.specs.Lines.{line_at, number_over};

use pages::{Width, number_in, write_number};

/// How many bytes a line has.
pub(crate) const LINE_BYTES: u64 = 64;

/// 64 bytes from a multiple of 64 on, of which only the covered ones mean something.
#[derive(Clone, Copy)]
pub struct Line {
    /// The bytes, in rising address.
    pub bytes: [u8; 64],
    /// Bit `j` is set if byte `j` is covered.
    pub mask: u64,
}

impl Line {
    /// A line that covers no byte.
    #[inline]
    pub(crate) fn empty() -> Line
        ensures { result.mask ≡ 0 }
    {
        Line {
            bytes: [0; 64],
            mask: 0,
        }
    }

    /// Writes a number from an index on, and covers its bytes.
    #[inline]
    pub(crate) fn put(&mut self, index: u64, width: Width, value: u64)
        requires { index + width_bytes width ≤ 64 }
        ensures { (j : ℕ) → j < 64 → line_at self.new j ≡ (if in_range index (width_bytes width) j
            then Some (byte_of value (j - index)) else line_at self.old j) }
    {
        write_number(&mut self.bytes, index as usize, width, value);
        self.mask |= ones(width) << index;
    }

    /// A number with the covered bytes from an index on instead of its own.
    #[inline]
    pub(crate) fn over(&self, number: u64, index: u64, width: Width) -> u64
        requires index { index + width_bytes width ≤ 64 }
        requires fits { number < 2 ^ (8 * width_bytes width) }
        ensures { result ≡ number_over self.now index number (width_bytes width) }
    {
        let all = ones(width);
        let cover = (self.mask >> index) & all;
        if cover == 0 {
            return number;
        }
        if cover == all {
            return number_in(&self.bytes, index as usize, width);
        }
        self.mixed(number, index, width)
    }

    // The same byte by byte, for a number of which only some bytes are covered.
    #[cold]
    #[inline(never)]
    fn mixed(&self, number: u64, index: u64, width: Width) -> u64
        requires index { index + width_bytes width ≤ 64 }
        ensures { result ≡ number_over self.now index number (width_bytes width) }
    {
        let mut bytes = number.to_le_bytes();
        for k in 0..width.bytes() {
            if (self.mask >> (index + k)) & 1 == 1 {
                bytes[k as usize] = self.bytes[(index + k) as usize];
            }
        }
        number_in(&bytes, 0, width)
    }
}

/// As many ones as the width has bytes.
#[inline(always)]
fn ones(width: Width) -> u64
    ensures { result ≡ 2 ^ width_bytes width - 1 }
{
    match width {
        Width::W1 => 0x1,
        Width::W2 => 0x3,
        Width::W4 => 0xf,
        Width::W8 => 0xff,
    }
}
