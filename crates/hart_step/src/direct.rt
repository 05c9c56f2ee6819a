ghost use Rattle.std.specs.Prelude.{◌≡◌, ◌<◌, length, OnOk, OnErr};
ghost use Rattle.pages.specs.Paged.{is_page_ready};
ghost use Rattle.hart_step.specs.Room.{CanTake, Readied};

use crate::bus::Bus;
use pages::{Fault, OutOfMemory, Pages, Store, Width};

/// Guest memory itself as a bus: the direct view.
///
/// A store has room where its page is ready or a spare page is left. Elsewhere a spare page is asked for.
impl Bus for Pages {
    ghost use Rattle.hart_step.specs.Room.{CanTake, TakesDirectly, takes_directly_none, takes_directly_more};

    ghost memory = { λ p. p.memory };

    ghost has_room = { λ p s. CanTake p s };

    ghost takes = { λ p ss q. TakesDirectly p ss q };

    #[inline(always)]
    fn fetch(&self, pc: u64) -> Option<u32> {
        Pages::fetch(self, pc)
    }

    #[inline(always)]
    fn load(&self, address: u64, width: Width) -> Result<u64, Fault> {
        self.read(address, width)
    }

    #[inline]
    fn store(&mut self, s: Store) -> Result<Result<(), Fault>, OutOfMemory> {
        if let Err(fault) = self.check_store(s.address, s.width) {
            return Ok(Err(fault));
        }
        // A store that has no fault lies in one of these pages.
        let _pages = self.count();
        make_room(self, (s.address / 4096) as u32)?;
        self.apply(s);
        Ok(Ok(()))
    }

    ghost takes_none = { λ p. takes_directly_none p };

    ghost takes_more = { λ p q r ss ts. takes_directly_more p q r ss ts };
}

/// Sees that the page is ready or a spare page is left.
fn make_room(pages: &mut Pages, page: u32) -> Result<(), OutOfMemory>
    requires { page < length pages.old.ready }
    ensures { Readied page result pages.old pages.new }
{
    if pages.ready(page) || pages.spare() > 0 {
        return Ok(());
    }
    let alloc = pages.allocator();
    pages.prepare(alloc, &[], 1)
}
