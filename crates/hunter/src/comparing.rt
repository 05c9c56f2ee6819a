ghost use Rattle.std.specs.Prelude.{◌≡◌, ◌<◌, ◌*◌, ◌↔◌, IsTrue, length, map};
ghost use Rattle.pages.specs.Flat.{blank, page_bytes};
ghost use Rattle.serial_phase.specs.Forgetting.{uncounted};

use hart_step::Hart;
use pages::Pages;

/// Whether harts are the same but for their counts. Mostly a pc tells those of a run that moves on apart.
pub(crate) fn are_same_harts(harts: &[Hart], others: &[Hart]) -> bool
    ensures { IsTrue result ↔ (map uncounted harts.now ≡ map uncounted others.now) }
{
    match harts {
        [] => others.is_empty(),
        [hart, rest @ ..] => match others {
            [] => false,
            [other, more @ ..] => is_same_hart(hart, other) && are_same_harts(rest, more),
        },
    }
}

fn is_same_hart(hart: &Hart, other: &Hart) -> bool
    ensures { IsTrue result ↔ (uncounted hart.now ≡ uncounted other.now) }
{
    hart.pc == other.pc && hart.x == other.x && hart.stop == other.stop
}

/// Whether two memories have the same bytes.
pub(crate) fn are_same_pages(pages: &Pages, others: &Pages) -> bool
    ensures { IsTrue result ↔ (pages.now.memory.bytes ≡ others.now.memory.bytes) }
{
    let count = pages.count();
    if count != others.count() {
        return false;
    }
    for page in 0..count {
        if !is_same_page(pages, others, page) {
            return false;
        }
    }
    true
}

/// Whether a page has the same bytes in both.
fn is_same_page(pages: &Pages, others: &Pages, page: u32) -> bool
    requires in_first { page < length pages.now.ready }
    requires in_second { page < length others.now.ready }
    ensures { IsTrue result ↔ (page_bytes pages.now.memory.bytes page ≡
        page_bytes others.now.memory.bytes page) }
{
    match (pages.page(page), others.page(page)) {
        (None, None) => true,
        (Some(bytes), None) => is_blank(bytes),
        (None, Some(bytes)) => is_blank(bytes),
        (Some(bytes), Some(others)) => are_same_bytes(bytes, others),
    }
}

fn are_same_bytes(bytes: &[u8], others: &[u8]) -> bool
    ensures { IsTrue result ↔ (bytes.now ≡ others.now) }
{
    bytes == others
}

/// Whether these are the bytes of a page that holds none.
#[tactic(auto, unfolding(pages::specs::Flat::blank))]
fn is_blank(bytes: &[u8]) -> bool
    ensures { IsTrue result ↔ (bytes.now ≡ blank) }
{
    let blank = [0; 4096];
    are_same_bytes(bytes, &blank)
}
