//! The bytes that memory opened with.

ghost use Rattle.std.specs.Prelude.{◌≡◌, ◌-◌, length, map, slice_index, true, false, MatchOption, IfOk};
ghost use Rattle.pages.specs.Memory.{in_range};
ghost use Rattle.trace.specs.Pieces.{pieces_in};
ghost use Rattle.trace.specs.Traced.{laid, opening_at};

use pages::{OutOfMemory, Piece};
use std::alloc::Global;
use std::mem;
use std::sync::Arc;

/// The pieces that memory opened with.
#[derive(Drop)]
pub(crate) enum Opening {
    /// Those of one trace.
    Own(Vec<Piece>),
    /// Those of a trace and its copies.
    Shared(Arc<Vec<Piece>>),
}

impl Opening {
    fn pieces(&self) -> &[Piece]
        ensures { result.now ≡ pieces_in self.now }
    {
        match self {
            Opening::Own(pieces) => pieces.as_slice(),
            Opening::Shared(pieces) => pieces.as_slice(),
        }
    }

    /// The byte at an address of the first piece that holds it, and else 0.
    pub(crate) fn byte(&self, address: u64) -> u8
        ensures { result ≡ opening_at (map laid (pieces_in self.now)) address }
    {
        opening_byte(self.pieces(), address)
    }

    /// Has copies share the pieces from here on.
    pub(crate) fn share(&mut self) -> Result<(), OutOfMemory>
        ensures { pieces_in self.new ≡ pieces_in self.old }
    {
        let Opening::Own(pieces) = self else {
            return Ok(());
        };
        let alloc = *pieces.allocator();
        match Arc::new(alloc, mem::replace(pieces, Vec::new(alloc))) {
            Ok(shared) => {
                *self = Opening::Shared(shared);
                Ok(())
            }
            Err(refused) => {
                *self = Opening::Own(refused.value);
                Err(OutOfMemory)
            }
        }
    }

    /// Equal pieces: the same ones where they are shared.
    pub(crate) fn copy(&self, alloc: Global) -> Result<Opening, OutOfMemory>
        ensures { IfOk result (λ o. map laid (pieces_in o) ≡ map laid (pieces_in self.now)) }
    {
        Ok(match self {
            Opening::Own(pieces) => Opening::Own(copies_of(alloc, pieces)?),
            Opening::Shared(pieces) => Opening::Shared(pieces.clone()?),
        })
    }
}

/// The byte at an address of the first piece that holds it, and else 0.
fn opening_byte(pieces: &[Piece], address: u64) -> u8
    ensures { result ≡ opening_at (map laid pieces.now) address }
{
    for piece in pieces {
        if let Some(byte) = byte_at(piece, address) {
            return byte;
        }
    }
    0
}

/// The byte of a piece at an address, if it holds one there.
fn byte_at(piece: &Piece, address: u64) -> Option<u8>
    ensures { MatchOption result (in_range piece.now.start (length piece.now.bytes.items) address ≡
        false) (λ b. (in_range piece.now.start (length piece.now.bytes.items) address ≡ true) ×
        (b ≡ slice_index piece.now.bytes.items (address - piece.now.start))) }
{
    let start = piece.start;
    if address < start {
        return None;
    }
    let offset = address - start;
    piece.bytes.get(offset as usize).copied()
}

/// Equal pieces.
fn copies_of(alloc: Global, pieces: &[Piece]) -> Result<Vec<Piece>, OutOfMemory>
    ensures { IfOk result (λ v. map laid v.items ≡ map laid pieces.now) }
{
    let mut copies = Vec::with_capacity(alloc, pieces.len())?;
    for piece in pieces {
        copies.push(copy_of(alloc, piece)?)?;
    }
    Ok(copies)
}

fn copy_of(alloc: Global, piece: &Piece) -> Result<Piece, OutOfMemory>
    ensures { IfOk result (λ p. laid p ≡ laid piece.now) }
{
    Ok(Piece {
        start: piece.start,
        bytes: Vec::from_slice(alloc, &piece.bytes)?,
    })
}
