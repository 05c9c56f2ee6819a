ghost use Rattle.std.specs.Prelude.{◌≡◌, ◌≤◌, ◌+◌, length};
ghost use Rattle.elf_loader.specs.Segments.{field};

use byteorder::{ByteOrder, LittleEndian};

/// The number of 16 bits at an offset of a file, its least significant byte first.
#[tactic(auto, unfolding(crate::specs::Segments::field))]
pub(crate) fn half_at(file: &[u8], offset: usize) -> u16
    requires { offset + 2 ≤ length file.now }
    ensures { result ≡ field file.now offset 2 }
{
    LittleEndian::read_u16(&file[offset..])
}

/// The number of 32 bits at an offset of a file, its least significant byte first.
#[tactic(auto, unfolding(crate::specs::Segments::field))]
pub(crate) fn word_at(file: &[u8], offset: usize) -> u32
    requires { offset + 4 ≤ length file.now }
    ensures { result ≡ field file.now offset 4 }
{
    LittleEndian::read_u32(&file[offset..])
}

/// The number of 64 bits at an offset of a file, its least significant byte first.
#[tactic(auto, unfolding(crate::specs::Segments::field))]
pub(crate) fn double_at(file: &[u8], offset: usize) -> u64
    requires { offset + 8 ≤ length file.now }
    ensures { result ≡ field file.now offset 8 }
{
    LittleEndian::read_u64(&file[offset..])
}
