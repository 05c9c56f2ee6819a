use crate::live_registers::LiveRegisters;
use crate::liveness::settle_live;
use hart_step::{DecodedCode, MOST_WORDS, decode_range};
use pages::{OutOfMemory, Pages};
use rv64_decode::{Instr, decode};
use std::alloc::Global;

/// A guest's memory as its image has it, with its words of code decoded.
#[derive(Drop)]
pub struct GuestCode {
    pages: Pages,
    parts: Vec<CodePart>,
}

/// A range of code.
#[derive(Drop)]
pub(crate) struct CodePart {
    /// Its words.
    pub(crate) code: DecodedCode,
    /// The registers that are live before each.
    pub(crate) live: Vec<LiveRegisters>,
}

impl GuestCode {
    /// The code of a memory.
    ///
    /// # Errors
    ///
    /// `OutOfMemory` alone.
    pub fn new(alloc: Global, pages: Pages) -> Result<GuestCode, OutOfMemory> {
        let mut parts = parts_of(alloc, &pages)?;
        settle_live(&pages, &mut parts);
        Ok(GuestCode { pages, parts })
    }

    /// The memory.
    #[inline]
    pub fn pages(&self) -> &Pages {
        &self.pages
    }

    /// The instruction at an address.
    #[inline]
    pub fn instruction_at(&self, pc: u64) -> Option<Instr> {
        instruction_in(&self.pages, &self.parts, pc)
    }

    /// The registers that are live before the instruction at an address: what another one holds makes no difference to what the hart
    /// does from there on.
    #[inline]
    pub fn live_at(&self, pc: u64) -> LiveRegisters {
        live_in(&self.pages, &self.parts, pc)
    }
}

/// The ranges of code of a memory.
fn parts_of(alloc: Global, pages: &Pages) -> Result<Vec<CodePart>, OutOfMemory> {
    let mut parts = Vec::new(alloc);
    for range in pages.code() {
        let code = decode_range(alloc, pages, *range, MOST_WORDS)?;
        let live = vec![in alloc; LiveRegisters::NONE; code.words().len()]?;
        parts.push(CodePart { code, live })?;
    }
    Ok(parts)
}

/// The instruction at an address.
#[inline]
pub(crate) fn instruction_in(pages: &Pages, parts: &[CodePart], pc: u64) -> Option<Instr> {
    for part in parts {
        if let Some(i) = part.code.get(pc) {
            return Some(i);
        }
    }
    match pages.fetch(pc) {
        Some(word) => decode(word),
        None => None,
    }
}

/// The registers that are live at an address, as far as is known: all where there is a word that isn't decoded, and none where there is
/// no word, since the hart stops.
#[inline]
pub(crate) fn live_in(pages: &Pages, parts: &[CodePart], pc: u64) -> LiveRegisters {
    for part in parts {
        let distance = pc.wrapping_sub(part.code.first());
        if distance % 4 == 0 && distance / 4 < part.live.len() as u64 {
            return part.live[(distance / 4) as usize];
        }
    }
    match pages.fetch(pc) {
        Some(_) => LiveRegisters::ALL,
        None => LiveRegisters::NONE,
    }
}
