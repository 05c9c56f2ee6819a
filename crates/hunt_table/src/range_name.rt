ghost use Rattle.std.specs.Prelude.{◌≡◌, ◌↔◌, IsTrue};
ghost use Rattle.std.specs.List.{list_all};
ghost use Rattle.hunt_table.specs.Names.{is_name_byte, name_of};

use std::marker::Model;

/// The name of a range: one or more characters of ASCII that can be printed, none of them a blank.
pub struct RangeName {
    bytes: Vec<u8>,
}

// By hand, so that a proof has one step for it wherever one is dropped, in this crate and above.
impl Drop for RangeName {
    fn drop(self) {
        let RangeName { bytes } = self;
        drop(bytes);
    }
}

impl Model for RangeName {
    ghost use Rattle.std.specs.Prelude.{ℕ, List};

    ghost Value = { List ℕ };

    ghost view = { λ n. n.bytes.items };
}

impl RangeName {
    /// Bytes as a name, if they are one.
    pub fn of(bytes: Vec<u8>) -> Option<RangeName>
        ensures { result ≡ name_of bytes.items }
    {
        if bytes.is_empty() || !are_name_bytes(&bytes) {
            return None;
        }
        Some(RangeName { bytes })
    }

    /// The characters.
    pub fn as_bytes(&self) -> &[u8]
        ensures { result.now ≡ self.now }
    {
        self.bytes.as_slice()
    }
}

/// Whether a byte may stand in a name.
pub(crate) fn is_name_byte(byte: u8) -> bool
    ensures { result ≡ is_name_byte byte }
{
    (b'!'..=b'~').contains(&byte)
}

fn are_name_bytes(bytes: &[u8]) -> bool
    ensures { result ≡ list_all is_name_byte bytes.now }
{
    bytes.iter().all(|byte| is_name_byte(*byte))
}

fn are_same_bytes(bytes: &[u8], others: &[u8]) -> bool
    ensures { IsTrue result ↔ (bytes.now ≡ others.now) }
{
    bytes == others
}

/// Whether two ranges have one name, or neither has any.
pub(crate) fn are_same_names(name: &Option<RangeName>, other: &Option<RangeName>) -> bool
    ensures { IsTrue result ↔ (name.now ≡ other.now) }
{
    match (name, other) {
        (None, None) => true,
        (Some(name), Some(other)) => are_same_bytes(name.as_bytes(), other.as_bytes()),
        _ => false,
    }
}
