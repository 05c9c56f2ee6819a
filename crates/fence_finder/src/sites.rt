//! Sites and gaps of the program, by their names.

use crate::guest::Guest;
use elf_loader::function_at;
use fence_search::Weakness;
use fence_table::{Moved, NamedGap, Passed, Site, SiteName};
use machine::Format;
use pages::OutOfMemory;

impl Guest<'_> {
    /// The instruction at an address, with its offset in a function of an ELF file.
    fn site(&self, pc: u64) -> Result<Site, OutOfMemory> {
        let named = match self.settings.hunt.format {
            Format::Elf => function_at(self.file, pc),
            Format::Flat => None,
        };
        let name = match named {
            Some(named) => Some(SiteName {
                function: Vec::from_slice(self.alloc, named.name)?,
                offset: named.offset,
            }),
            None => None,
        };
        Ok(Site { pc, name })
    }

    /// The gap between two instructions.
    pub(crate) fn gap_between(&self, earlier: u64, later: u64) -> Result<NamedGap, OutOfMemory> {
        Ok(NamedGap {
            earlier: self.site(earlier)?,
            later: self.site(later)?,
        })
    }

    /// The operation that a fence would have kept there.
    pub(crate) fn moved(&self, weakness: &Weakness) -> Result<Moved, OutOfMemory> {
        let moved = &weakness.moved;
        Ok(Moved {
            operation: moved.operation,
            site: self.site(moved.pc)?,
            direction: moved.direction,
            passed: Passed {
                operation: moved.passed.operation,
                site: self.site(moved.passed.pc)?,
            },
        })
    }
}
