ghost use Rattle.std.specs.Prelude.{◌≡◌, ◌+◌, ◌%◌, ◌<◌, ◌≤◌};
ghost use Rattle.store_buffer.specs.Lines.{whole_line};
ghost use Rattle.commit_phase.specs.Writing.{Written, Writable, index_bytes, word_bytes};

use pages::{Part, Store, Width, number_in};
use store_buffer::Line;

/// Writes the bytes that a line covers to its page, in which it starts at the index `start`. It goes eight bytes at a
/// time.
#[inline]
pub(crate) fn write_line(part: &mut Part, start: u64, line: &Line)
    requires aligned { start % 64 ≡ 0 }
    requires inside { start + 64 ≤ 4096 }
    requires ready { Writable part.old (whole_line start line.now) }
    ensures { Written (whole_line start line.now) part.old part.new }
{
    for k in 0..8 {
        write_word(part, start, line, 8 * k);
    }
}

/// Writes the bytes that a line covers of eight indices: all at once where each is covered.
#[inline]
fn write_word(part: &mut Part, start: u64, line: &Line, index: u64)
    requires aligned { start % 64 ≡ 0 }
    requires inside { start + 64 ≤ 4096 }
    requires index { (index % 8 ≡ 0) × (index < 64) }
    requires ready { Writable part.old (word_bytes start line.now index) }
    ensures { Written (word_bytes start line.now index) part.old part.new }
{
    let cover = (line.mask >> index) & 0xff;
    if cover == 0 {
        return;
    }
    if cover == 0xff {
        part.apply(Store {
            address: start + index,
            width: Width::W8,
            value: number_in(&line.bytes, index as usize, Width::W8),
        });
        return;
    }
    write_each(part, start, line, index);
}

// The same byte by byte, for eight indices of which only some are covered.
fn write_each(part: &mut Part, start: u64, line: &Line, index: u64)
    requires inside { start + 64 ≤ 4096 }
    requires index { index + 8 ≤ 64 }
    requires ready { Writable part.old (word_bytes start line.now index) }
    ensures { Written (word_bytes start line.now index) part.old part.new }
{
    for j in index..index + 8 {
        write_at(part, start, line, j);
    }
}

/// Writes the byte at a index, if the line covers it.
#[inline]
fn write_at(part: &mut Part, start: u64, line: &Line, index: u64)
    requires inside { start + 64 ≤ 4096 }
    requires index { index < 64 }
    requires ready { Writable part.old (index_bytes start line.now index) }
    ensures { Written (index_bytes start line.now index) part.old part.new }
{
    if (line.mask >> index) & 1 == 1 {
        part.apply(Store {
            address: start + index,
            width: Width::W1,
            value: u64::from(line.bytes[index as usize]),
        });
    }
}
