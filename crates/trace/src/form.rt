ghost use Rattle.std.specs.Prelude.{◌≡◌, ◌^◌, ◌↔◌, IsTrue, true, All};
ghost use Rattle.hart_step.specs.Forms.{Fills, Formed, LiesAt, is_atomic_width};
ghost use Rattle.trace.specs.Traced.{HasForm};

use pages::Width;
use round_schedule::{Access, Event};

/// Whether each event has the form of its kind.
pub(crate) fn all_have_forms(events: &[Event]) -> bool
    ensures { IsTrue result ↔ All HasForm events.now }
{
    events.iter().all(|event| has_form(&event.access))
}

/// Whether an access has the form of its kind: its address is a multiple of its width and below 2^32, what it read and
/// wrote fits the width, and an LR, an SC and an AMO have a word or a doubleword.
fn has_form(access: &Access) -> bool
    ensures { IsTrue result ↔ Formed (2 ^ 32) access.now }
{
    match *access {
        Access::Load {
            width,
            address,
            read,
            ..
        } => lies_at(width, address) && fills(width, read),
        Access::Store {
            width,
            address,
            written,
            ..
        } => lies_at(width, address) && fills(width, written),
        Access::LoadReserved {
            width,
            address,
            read,
            ..
        } => is_atomic(width) && lies_at(width, address) && fills(width, read),
        Access::StoreConditional {
            width,
            address,
            written,
            ..
        } => is_atomic(width)
            && lies_at(width, address)
            && written.is_none_or(|value| fills(width, value)),
        Access::Atomic {
            width,
            address,
            read,
            written,
            ..
        } => is_atomic(width)
            && lies_at(width, address)
            && fills(width, read)
            && fills(width, written),
        Access::Fence { .. } => true,
    }
}

fn is_atomic(width: Width) -> bool
    ensures { result ≡ is_atomic_width width }
{
    match width {
        Width::W1 | Width::W2 => false,
        Width::W4 | Width::W8 => true,
    }
}

fn lies_at(width: Width, address: u64) -> bool
    ensures { IsTrue result ↔ LiesAt (2 ^ 32) width address }
{
    address % width.bytes() == 0 && address < 1 << 32
}

fn fills(width: Width, value: u64) -> bool
    ensures { IsTrue result ↔ Fills width value }
{
    match width {
        Width::W1 => value < 1 << 8,
        Width::W2 => value < 1 << 16,
        Width::W4 => value < 1 << 32,
        Width::W8 => true,
    }
}
