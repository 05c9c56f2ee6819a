ghost use Rattle.std.specs.Prelude.{◌≡◌, ◌≤◌, length};
ghost use Rattle.elf_loader.specs.ElfCauses.{has_magic, is_little_64, passes};

/// The length of an ELF64 file's header.
pub(crate) const HEADER: usize = 64;

/// Whether the file begins as an ELF file does.
pub(crate) fn has_magic(file: &[u8]) -> bool
    requires { 4 ≤ length file.now }
    ensures { result ≡ has_magic file.now }
{
    file[0] == 0x7f && file[1] == b'E' && file[2] == b'L' && file[3] == b'F'
}

/// Whether its class is that of 64 bits, its data are little-endian, and its version is 1.
pub(crate) fn is_little_64(file: &[u8]) -> bool
    requires { 7 ≤ length file.now }
    ensures { result ≡ is_little_64 file.now }
{
    file[4] == 2 && file[5] == 1 && file[6] == 1
}

/// Whether a part passes an end. The sum may exceed 64 bits.
pub(crate) fn passes(end: u64, start: u64, len: u64) -> bool
    ensures { result ≡ passes end start len }
{
    u128::from(start) + u128::from(len) > u128::from(end)
}
