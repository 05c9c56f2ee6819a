ghost use Rattle.std.specs.Prelude.{◌≡◌, ◌<◌, ◌/◌, OnOk, length, List, true};
ghost use Rattle.pages.specs.Paged.{is_page_ready};
ghost use Rattle.guest_rounds.specs.HartEnds.{AllFit, AllOnReady, AreFit, AreReady, KeepsPages};

use hart_rounds::HartEnd;
use pages::{OutOfMemory, Pages};
use store_buffer::StoreBuffer;

/// Makes the pages ready to which the buffers of all harts write. Refused, it changes no byte.
pub(crate) fn make_ready(pages: &mut Pages, ends: &[HartEnd]) -> Result<(), OutOfMemory>
    requires { AreFit pages.old.memory ends.now }
    ensures keeps { KeepsPages pages.old pages.new }
    ensures ready { OnOk result (AreReady pages.new ends.now) }
{
    for end in ends {
        make_buffer_ready(pages, &end.buffer)?;
    }
    Ok(())
}

/// Makes the pages ready to which one buffer writes.
fn make_buffer_ready(pages: &mut Pages, buffer: &StoreBuffer) -> Result<(), OutOfMemory>
    requires { AllFit pages.old.memory buffer.now }
    ensures keeps { KeepsPages pages.old pages.new }
    ensures ready { OnOk result (AllOnReady pages.new buffer.now) }
{
    if buffer.is_empty() {
        return Ok(());
    }
    // A byte of guest memory lies in one of these pages.
    let _pages = pages.count();
    for (start, _line) in buffer.lines() {
        make_page_ready(pages, start)?;
    }
    Ok(())
}

/// Makes the page of an address of guest memory ready. An address past it has none.
fn make_page_ready(pages: &mut Pages, address: u64) -> Result<(), OutOfMemory>
    ensures keeps { KeepsPages pages.old pages.new }
    ensures ready { OnOk result (address / 4096 < length pages.old.ready →
        is_page_ready pages.new (address / 4096) ≡ true) }
{
    if address / 4096 >= u64::from(pages.count()) {
        return Ok(());
    }
    let page = (address / 4096) as u32;
    if pages.ready(page) {
        return Ok(());
    }
    let alloc = pages.allocator();
    pages.prepare(alloc, &[page], 0)
}
