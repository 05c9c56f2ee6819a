ghost use Rattle.std.specs.Prelude.{◌≡◌, ◌≤◌, length, IfOk};
ghost use Rattle.guest_rounds.specs.Guests.{opening_guest};
ghost use Rattle.execution_scripts.specs.Findings.{start_of};

use elf_loader::Image;
use execution_checker::Execution;
use guest_rounds::opening_harts;
use hart_step::decode_around;
use pages::OutOfMemory;
use round_schedule::MOST_HARTS;
use serial_phase::SharedState;
use std::alloc::Global;

/// What the harts of an image and an input share before their first instructions.
fn shared_at_start(
    alloc: Global,
    image: &Image,
    input: &[u8],
    harts: u32,
) -> Result<SharedState, OutOfMemory>
    requires { harts ≤ MOST_HARTS }
    ensures memory { IfOk result (λ s. s.pages.memory
        ≡ (opening_guest image.now input.now harts).shared.memory) }
    ensures console { IfOk result (λ s. s.console.console
        ≡ (opening_guest image.now input.now harts).shared.console) }
    ensures reservations { IfOk result (λ s. length s.reservations ≡ harts) }
{
    let pages = image.to_pages(alloc)?;
    let code = decode_around(alloc, &pages, image.entry())?;
    let input = Vec::from_slice(alloc, input)?;
    Ok(SharedState::open(alloc, pages, code, input, harts))
}

/// The execution of an image and an input in which nothing is done yet.
///
/// # Errors
///
/// `OutOfMemory` alone.
pub fn open_execution(
    alloc: Global,
    image: &Image,
    input: &[u8],
    harts: u32,
) -> Result<Execution, OutOfMemory>
    requires { harts ≤ MOST_HARTS }
    ensures memory { IfOk result (λ e. e.memory
        ≡ (opening_guest image.now input.now harts).shared.memory) }
    ensures standing { IfOk result (λ e. e.standing
        ≡ start_of (opening_guest image.now input.now harts)) }
{
    let opened = opening_harts(alloc, image.entry(), harts)?;
    let shared = shared_at_start(alloc, image, input, harts)?;
    Execution::new(alloc, opened, shared)
}
