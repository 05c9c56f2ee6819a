ghost use Rattle.std.specs.Prelude.{◌≡◌, ◌∷◌, [], ◌++◌, length, IfOk, OnOk};
ghost use Rattle.guest_rounds.specs.Opening.{opening_hart, opening_harts};

use hart_step::Hart;
use pages::OutOfMemory;
use std::alloc::Global;

/// A hart before its first instruction: x10 is its number, x11 is the number of harts.
fn opening_hart(entry: u64, harts: u32, number: u32) -> Hart
    ensures { result ≡ opening_hart entry harts number }
{
    let mut x = [0; 32];
    x[10] = u64::from(number);
    x[11] = u64::from(harts);
    Hart {
        x,
        pc: entry,
        done: 0,
        stop: None,
    }
}

/// So many harts before their first instructions, in hart order.
///
/// # Errors
///
/// `OutOfMemory` alone.
pub fn opening_harts(alloc: Global, entry: u64, harts: u32) -> Result<Vec<Hart>, OutOfMemory>
    ensures harts { IfOk result (λ hs. hs.items ≡ opening_harts entry harts 0 harts) }
    ensures count { IfOk result (λ hs. length hs.items ≡ harts) }
{
    let mut opened = Vec::new(alloc);
    for number in 0..harts {
        add(&mut opened, opening_hart(entry, harts, number))?;
    }
    Ok(opened)
}

fn add(harts: &mut Vec<Hart>, hart: Hart) -> Result<(), OutOfMemory>
    ensures { OnOk result (harts.new.items ≡ harts.old.items ++ hart ∷ []) }
{
    match harts.push(hart) {
        Ok(()) => Ok(()),
        Err(_) => Err(OutOfMemory),
    }
}
