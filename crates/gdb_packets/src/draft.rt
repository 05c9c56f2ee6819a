ghost use Rattle.std.specs.Prelude.{◌≡◌, ℕ, List, [], ◌∷◌, ◌++◌, ◌%◌, ◌<◌, ◌≤◌, IfOk, IfSome, length, sum};
ghost use Rattle.gdb_packets.specs.Drafts.{IsDraft, HasFate};
ghost use Rattle.gdb_packets.specs.Payload.{most};
ghost use Rattle.gdb_packets.specs.Stream.{is_sum_of, told_of};
ghost use Rattle.gdb_packets.specs.Views.{told_in};
ghost use Rattle.hex.specs.Hex.{hex_digit_value};

use crate::fields::digit_value;
use crate::item::Item;
use crate::payload::{MOST, payload_of};
use pages::OutOfMemory;
use std::alloc::Global;

/// What became of the bytes of a packet.
#[derive(Clone, Copy, PartialEq)]
pub(crate) enum Fate {
    /// They are all there.
    Whole,
    /// They are more than a packet has.
    TooLong,
    /// They found no memory.
    Lost,
}

/// The data of a packet, as far as it came.
#[derive(Drop)]
pub(crate) struct Draft {
    pub(crate) bytes: Vec<u8>,
    pub(crate) sum: u8,
    pub(crate) fate: Fate,
}

/// Keeps a byte behind these, where there is room for it.
fn keep(bytes: &mut Vec<u8>, byte: u8) -> Fate
    ensures { length bytes.old.items ≤ most →
        HasFate result bytes.new.items (bytes.old.items ++ byte ∷ []) }
{
    if bytes.len() == MOST {
        return Fate::TooLong;
    }
    match bytes.push(byte) {
        Ok(()) => Fate::Whole,
        Err(_) => Fate::Lost,
    }
}

impl Draft {
    /// No data yet.
    pub(crate) fn new(alloc: Global) -> Draft
        ensures { IsDraft [] result }
    {
        Draft {
            bytes: Vec::new(alloc),
            sum: 0,
            fate: Fate::Whole,
        }
    }

    /// Adds a byte.
    pub(crate) fn add(&mut self, byte: u8)
        ensures { (bs : List ℕ) → IsDraft bs self.old → IsDraft (bs ++ byte ∷ []) self.new }
    {
        self.sum = self.sum.wrapping_add(byte);
        if self.fate == Fate::Whole {
            self.fate = keep(&mut self.bytes, byte);
        }
    }

    /// Whether two digits say the sum of the bytes.
    fn is_sum(&self, high: u8, low: u8) -> bool
        ensures { (bs : List ℕ) → IsDraft bs self.now →
            result ≡ is_sum_of bs (hex_digit_value high) (hex_digit_value low) }
    {
        let Some(high) = digit_value(high) else {
            return false;
        };
        let Some(low) = digit_value(low) else {
            return false;
        };
        self.sum == high * 16 + low
    }

    /// What the packet tells whose data this is, with the two digits behind it.
    pub(crate) fn end(self, alloc: Global, high: u8, low: u8) -> Result<Item, OutOfMemory>
        ensures { (bs : List ℕ) → IsDraft bs self →
            IfOk result (λ x. told_in x ≡ told_of bs high low) }
    {
        self.item(alloc, high, low)
    }

    /// The same.
    fn item(&self, alloc: Global, high: u8, low: u8) -> Result<Item, OutOfMemory>
        ensures { (bs : List ℕ) → IsDraft bs self.now →
            IfOk result (λ x. told_in x ≡ told_of bs high low) }
    {
        if !self.is_sum(high, low) {
            return Ok(Item::Spoilt);
        }
        match self.fate {
            Fate::Whole => {}
            Fate::TooLong => return Ok(Item::Spoilt),
            Fate::Lost => return Err(OutOfMemory),
        }
        match payload_of(alloc, self.bytes.as_slice())? {
            Some(payload) => Ok(Item::Packet(payload)),
            None => Ok(Item::Spoilt),
        }
    }
}
