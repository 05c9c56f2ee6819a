ghost use Rattle.std.specs.Prelude.{◌≡◌, IfOk};
ghost use Rattle.elf_loader.specs.Image.{memory_of};
ghost use Rattle.hart_step.specs.DecodedCode.{Shows};

use elf_loader::Image;
use hart_step::{DecodedCode, decode_around};
use pages::{OutOfMemory, Pages};
use std::alloc::Global;
use std::marker::Model;

/// A guest program with the memory that it is laid into and the decoded words around its entry. A run that begins with it shares
/// what its pages hold, and copies the words.
pub struct LaidImage {
    image: Image,
    // None is ready, so that a copy of them copies no page's bytes.
    pages: Pages,
    code: DecodedCode,
}

// By hand, so that a proof has one step for it wherever one is dropped, in this crate and above.
impl Drop for LaidImage {
    fn drop(self) {
        let LaidImage { image, pages, code } = self;
        drop(image);
        drop(pages);
        drop(code);
    }
}

impl Model for LaidImage {
    ghost use Rattle.std.specs.Prelude.{◌≡◌};
    ghost use Rattle.elf_loader.specs.Image.{Loaded, memory_of};
    ghost use Rattle.hart_step.specs.DecodedCode.{Shows};

    ghost Value = { Loaded };

    ghost view = { λ l. l.image };

    ghost invariant = { λ l. (l.pages.memory ≡ memory_of l.image) ×
        Shows l.pages.memory l.code.first l.code.instructions };
}

impl LaidImage {
    /// Lays a program into memory, and decodes the words around its entry.
    ///
    /// # Errors
    ///
    /// `OutOfMemory` alone.
    pub fn new(alloc: Global, image: Image) -> Result<LaidImage, OutOfMemory>
        ensures { IfOk result (λ l. l ≡ image) }
    {
        let mut laid = image.to_pages(alloc)?;
        let pages = laid.share(alloc)?;
        let code = decode_around(alloc, &pages, image.entry())?;
        Ok(LaidImage { image, pages, code })
    }

    /// The program.
    pub fn image(&self) -> &Image
        ensures { result.now ≡ self.now }
    {
        &self.image
    }

    /// Memory as the program finds it before its first instruction, and its decoded words. Nothing is laid or decoded anew.
    ///
    /// # Errors
    ///
    /// `OutOfMemory` alone.
    pub fn open(&self, alloc: Global) -> Result<(Pages, DecodedCode), OutOfMemory>
        ensures memory { IfOk result (λ x. x.0.memory ≡ memory_of self.now) }
        ensures shows { IfOk result (λ x. Shows x.0.memory x.1.first x.1.instructions) }
    {
        let pages = self.pages.copy(alloc)?;
        let code = self.code.copy(alloc)?;
        Ok((pages, code))
    }
}
