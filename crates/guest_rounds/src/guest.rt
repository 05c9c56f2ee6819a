ghost use Rattle.std.specs.Prelude.{◌≡◌, ◌≤◌, length, IfOk};
ghost use Rattle.guest_rounds.specs.Guests.{opening_guest, shared_of};
ghost use Rattle.elf_loader.specs.Image.{memory_of};
ghost use Rattle.hart_step.specs.DecodedCode.{Shows};

use crate::opening::opening_harts;
use crate::spare_lists::SpareLists;
use elf_loader::Image;
use hart_step::{DecodedCode, Hart, decode_around};
use laid_image::LaidImage;
use pages::{OutOfMemory, Pages};
use round_schedule::{MOST_HARTS, Reservations};
use serial_phase::{Console, SerialLog, SharedState};
use std::alloc::Global;
use std::marker::Model;

/// A guest between two rounds: its harts, and what they share. A round changes this, and nothing else.
pub struct GuestState {
    pub(crate) harts: Vec<Hart>,
    pub(crate) spare: SpareLists,
    pub(crate) shared: SharedState,
}

// By hand, so that a proof has one step for it wherever one is dropped, in this crate and above.
impl Drop for GuestState {
    fn drop(self) {
        let GuestState {
            harts,
            spare,
            shared,
        } = self;
        drop(harts);
        drop(spare);
        drop(shared);
    }
}

impl Model for GuestState {
    ghost use Rattle.guest_rounds.specs.Guests.{Guest, guest_of};
    ghost use Rattle.guest_rounds.specs.Held.{Agrees};

    ghost Value = { Guest };

    ghost view = { λ g. guest_of g.harts.items g.shared };

    ghost invariant = { λ g. Agrees g.harts.items g.spare.ends.items g.shared };
}

impl GuestState {
    /// The guest of an image and an input with so many harts, before the first round.
    pub fn open(
        alloc: Global,
        image: &Image,
        input: Vec<u8>,
        count: u32,
    ) -> Result<GuestState, OutOfMemory>
        requires { count ≤ MOST_HARTS }
        ensures { IfOk result (λ g. g ≡ opening_guest image.now input.items count) }
    {
        let pages = image.to_pages(alloc)?;
        let code = decode_around(alloc, &pages, image.entry())?;
        GuestState::begin(alloc, image, pages, code, input, count)
    }

    /// The same of an image that was laid into memory, so that one opens many guests: they share what its pages hold.
    pub fn open_laid(
        alloc: Global,
        laid: &LaidImage,
        input: Vec<u8>,
        count: u32,
    ) -> Result<GuestState, OutOfMemory>
        requires { count ≤ MOST_HARTS }
        ensures { IfOk result (λ g. g ≡ opening_guest laid.now input.items count) }
    {
        let (pages, code) = laid.open(alloc)?;
        GuestState::begin(alloc, laid.image(), pages, code, input, count)
    }

    /// The same in these pages, of which this is the code.
    fn begin(
        alloc: Global,
        image: &Image,
        pages: Pages,
        code: DecodedCode,
        input: Vec<u8>,
        count: u32,
    ) -> Result<GuestState, OutOfMemory>
        requires few { count ≤ MOST_HARTS }
        requires memory { pages.memory ≡ memory_of image.now }
        requires shows { Shows pages.memory code.first code.instructions }
        ensures { IfOk result (λ g. g ≡ opening_guest image.now input.items count) }
    {
        let harts = opening_harts(alloc, image.entry(), count)?;
        let shared = SharedState::open(alloc, pages, code, input, count);
        Ok(GuestState {
            harts,
            spare: SpareLists::new(alloc),
            shared,
        })
    }

    /// The harts, in hart order.
    pub fn harts(&self) -> &[Hart]
        ensures { result.now ≡ self.now.harts }
    {
        self.harts.as_slice()
    }

    /// Memory.
    pub fn pages(&self) -> &Pages
        ensures { result.now.memory ≡ self.now.shared.memory }
    {
        &self.shared.pages
    }

    /// The output so far.
    pub fn output(&self) -> &[u8]
        ensures { result.now ≡ self.now.shared.console.output }
    {
        self.shared.console.output()
    }

    /// The input and the output.
    pub fn console(&self) -> &Console
        ensures { result.now.console ≡ self.now.shared.console }
    {
        &self.shared.console
    }

    /// The reservations of the harts.
    pub fn reservations(&self) -> &Reservations
        ensures { result.now ≡ self.now.shared.reservations }
    {
        &self.shared.reservations
    }

    /// What the harts share alone. The harts are dropped.
    pub(crate) fn into_shared(self) -> SharedState
        ensures shared { shared_of result ≡ self.shared }
        ensures size { length result.reservations ≡ length self.harts }
    {
        let GuestState {
            harts,
            spare,
            shared,
        } = self;
        drop(harts);
        drop(spare);
        shared
    }

    /// There is one reservation's place for each hart.
    pub fn sizes_agree(&self)
        ensures { length self.now.shared.reservations ≡ length self.now.harts }
    {
        let _harts = &self.harts;
    }

    /// An equal guest. Pages that were written to are copied, and so are the decoded words of the code.
    pub fn copy(&self) -> Result<GuestState, OutOfMemory>
        ensures { IfOk result (λ g. g ≡ self.now) }
    {
        let pages = self.shared.pages.copy(self.shared.pages.allocator())?;
        self.over(pages)
    }

    /// An equal guest that shares its pages: each of the two gets its own of a page when it writes there. The decoded words of
    /// the code are copied.
    pub fn share(&mut self) -> Result<GuestState, OutOfMemory>
        ensures same { IfOk result (λ g. g ≡ self.old) }
        ensures stays { self.new ≡ self.old }
    {
        let alloc = self.shared.pages.allocator();
        let pages = self.shared.pages.share(alloc)?;
        self.over(pages)
    }

    /// The same guest over equal pages.
    fn over(&self, pages: Pages) -> Result<GuestState, OutOfMemory>
        requires { pages.memory ≡ self.now.shared.memory }
        ensures { IfOk result (λ g. g ≡ self.now) }
    {
        let alloc = pages.allocator();
        let (harts, console, code) = self.copied_beside(&pages)?;
        Ok(GuestState {
            harts,
            spare: SpareLists::new(alloc),
            shared: SharedState {
                pages,
                code,
                reservations: self.shared.reservations.copy(),
                console,
                // No turn is under way between two rounds.
                log: SerialLog::new(alloc),
            },
        })
    }

    /// Equal harts and an equal console, and the same decoded words, which are those of equal pages.
    fn copied_beside(&self, pages: &Pages) -> Result<(Vec<Hart>, Console, DecodedCode), OutOfMemory>
        requires { pages.now.memory ≡ self.now.shared.memory }
        ensures harts { IfOk result (λ x. x.0.items ≡ self.now.harts) }
        ensures console { IfOk result (λ x. x.1.console ≡ self.now.shared.console) }
        ensures code { IfOk result (λ x. Shows pages.now.memory x.2.first x.2.instructions) }
    {
        let alloc = pages.allocator();
        let harts = copied(alloc, &self.harts)?;
        let console = self.shared.console.copy(alloc)?;
        let code = self.shared.code.copy(alloc)?;
        Ok((harts, console, code))
    }
}

/// The same harts.
fn copied(alloc: Global, harts: &[Hart]) -> Result<Vec<Hart>, OutOfMemory>
    ensures { IfOk result (λ hs. hs.items ≡ harts.now) }
{
    Vec::from_slice(alloc, harts).map_err(|_| OutOfMemory)
}
