ghost use Rattle.std.specs.Prelude.{◌≡◌, ◌≤◌, ◌+◌, length};
ghost use Rattle.std.specs.List.{list_any};
ghost use Rattle.elf_loader.specs.ElfCauses.{is_past_file, is_past_memory, is_writable_code};
ghost use Rattle.elf_loader.specs.ElfTests.{has_overlap, shares};
ghost use Rattle.elf_loader.specs.Segments.{is_executable, memory_range, segment_at};

use crate::field::{double_at, word_at};
use crate::header::passes;
use pages::Range;

/// A part of an ELF file that is loaded.
#[derive(Clone, Copy)]
pub(crate) struct Segment {
    /// The flags of its program header: X is 1, W is 2, R is 4.
    pub(crate) flags: u32,
    /// Where its bytes begin in the file.
    pub(crate) offset: u64,
    /// Where it begins in guest memory.
    pub(crate) address: u64,
    /// How many bytes it has in the file.
    pub(crate) file_len: u64,
    /// How many bytes it has in guest memory. Those past the file's are 0.
    pub(crate) memory_len: u64,
}

impl Segment {
    /// The segment of the program header at an offset.
    pub(crate) fn at(file: &[u8], offset: usize) -> Segment
        requires { offset + 56 ≤ length file.now }
        ensures { result ≡ segment_at file.now offset }
    {
        Segment {
            flags: word_at(file, offset + 4),
            offset: double_at(file, offset + 8),
            address: double_at(file, offset + 16),
            file_len: double_at(file, offset + 32),
            memory_len: double_at(file, offset + 40),
        }
    }

    pub(crate) fn is_past_file(&self, end: u64) -> bool
        ensures { result ≡ is_past_file end self.now }
    {
        passes(end, self.offset, self.file_len) || self.file_len > self.memory_len
    }

    pub(crate) fn is_past_memory(&self, end: u64) -> bool
        ensures { result ≡ is_past_memory end self.now }
    {
        passes(end, self.address, self.memory_len)
    }

    pub(crate) fn is_executable(&self) -> bool
        ensures { result ≡ is_executable self.now }
    {
        self.flags & 1 == 1
    }

    pub(crate) fn is_writable_code(&self) -> bool
        ensures { result ≡ is_writable_code self.now }
    {
        self.is_executable() && self.flags & 2 == 2
    }

    /// The addresses of the segment.
    pub(crate) fn memory_range(&self) -> Range
        ensures { result ≡ memory_range self.now }
    {
        Range {
            start: self.address,
            len: self.memory_len,
        }
    }

    /// Whether an address is in both segments.
    fn shares(&self, other: &Segment) -> bool
        ensures { result ≡ shares self.now other.now }
    {
        if self.memory_len == 0 || other.memory_len == 0 {
            return false;
        }
        if self.address <= other.address {
            other.address - self.address < self.memory_len
        } else {
            self.address - other.address < other.memory_len
        }
    }
}

pub(crate) fn some_past_file(segments: &[Segment], end: u64) -> bool
    ensures { result ≡ list_any (is_past_file end) segments.now }
{
    segments.iter().any(|segment| segment.is_past_file(end))
}

pub(crate) fn some_past_memory(segments: &[Segment], end: u64) -> bool
    ensures { result ≡ list_any (is_past_memory end) segments.now }
{
    segments.iter().any(|segment| segment.is_past_memory(end))
}

pub(crate) fn some_writable_code(segments: &[Segment]) -> bool
    ensures { result ≡ list_any is_writable_code segments.now }
{
    segments.iter().any(|segment| segment.is_writable_code())
}

fn some_shares(segment: &Segment, others: &[Segment]) -> bool
    ensures { result ≡ list_any (shares segment.now) others.now }
{
    others.iter().any(|other| segment.shares(other))
}

/// Whether two of the segments share an address.
pub(crate) fn has_overlap(segments: &[Segment]) -> bool
    ensures { result ≡ has_overlap segments.now }
{
    match segments {
        [] => false,
        [first, rest @ ..] => some_shares(first, rest) || has_overlap(rest),
    }
}
