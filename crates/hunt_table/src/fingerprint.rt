ghost use Rattle.std.specs.Prelude.{◌≡◌, ◌↔◌, IsTrue};
ghost use Rattle.hunt_table.specs.Programs.{fingerprint_of};

use checksums::checksum_of;

/// What a table tells of a program: enough to tell it from another one.
#[derive(Clone, Copy, PartialEq, Eq)]
pub struct Fingerprint {
    /// How many bytes its image has.
    pub length: u64,
    /// The CRC-32 of these.
    pub checksum: u32,
}

impl Fingerprint {
    /// The fingerprint of a program with this image.
    pub fn of(image: &[u8]) -> Self
        ensures { result ≡ fingerprint_of image.now }
    {
        Fingerprint {
            length: image.len() as u64,
            checksum: checksum_of(image),
        }
    }
}

/// Whether two tables are of one program, or neither tells of which it is.
pub fn are_same_programs(program: Option<Fingerprint>, other: Option<Fingerprint>) -> bool
    ensures { IsTrue result ↔ (program ≡ other) }
{
    program == other
}
