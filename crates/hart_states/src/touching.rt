//! What an operation leaves of the bytes that it touches.
ghost use Rattle.std.specs.Prelude.{◌≡◌, ◌+◌, ◌-◌, ◌≤◌, ◌<◌, ◌^◌, ◌||◌, ◌&&◌, ℕ, if◌then◌else◌, option_map, OnOk, IfOk};
ghost use Rattle.pages.specs.Memory.{byte_of};
ghost use Rattle.round_schedule.specs.Accesses.{address_of, bytes_of, is_sc, loads, stores};
ghost use Rattle.memory_order.specs.Operations.{covers, is_amo};
ghost use Rattle.run_bounds.specs.Touched.{known_at};
ghost use Rattle.hart_states.specs.Choices.{byte_after};

use crate::choice::Choice;
use pages::{OutOfMemory, Width};
use round_schedule::Access;
use run_bounds::{OwnByte, TouchedByte, byte_known, set_byte};

/// The byte at a place of a number.
pub(crate) fn byte_in(number: u64, place: usize) -> u8
    ensures { result ≡ byte_of number place }
{
    let written = Access::Store {
        width: Width::W8,
        place: 0,
        address: 0,
        written: number,
    };
    written.byte_written(place as u64)
}

fn number_byte(number: Option<u64>, place: usize) -> Option<u8>
    ensures { result ≡ option_map (λ n. byte_of n place) number }
{
    match number {
        Some(number) => Some(byte_in(number, place)),
        None => None,
    }
}

/// Whether an access is an AMO or an SC.
fn is_atomic(access: &Access) -> bool
    ensures { result ≡ (is_amo access.now || is_sc access.now) }
{
    matches!(
        *access,
        Access::Atomic { .. } | Access::StoreConditional { .. }
    )
}

/// What is kept of the byte at a place of an operation.
fn byte_left(
    choice: &Choice,
    known: &TouchedByte,
    place: usize,
    behind: usize,
    needs: usize,
) -> TouchedByte
    requires few { place < 8 }
    requires there { known.now.address ≡ address_of choice.now.access + place }
    ensures { result ≡
        byte_after choice.now behind needs (address_of choice.now.access + place) known.now }
{
    TouchedByte {
        address: known.address,
        touched: known.touched.max(behind),
        seen: if choice.access.loads() {
            known.seen.max(choice.sources[place])
        } else {
            known.seen
        },
        own: if choice.access.stores() {
            Some(OwnByte {
                place: behind,
                byte: number_byte(choice.written, place),
                atomic: is_atomic(&choice.access),
                needs,
            })
        } else {
            known.own
        },
    }
}

/// Keeps of each byte of an operation what it leaves there.
fn touch(
    bytes: &mut Vec<TouchedByte>,
    choice: &Choice,
    behind: usize,
    needs: usize,
) -> Result<(), OutOfMemory>
    requires fits { address_of choice.now.access + bytes_of choice.now.access ≤ 2 ^ 64 }
    ensures { OnOk result ((x : ℕ) → known_at bytes.new.items x ≡
        (if covers choice.now.access x
        then byte_after choice.now behind needs x (known_at bytes.old.items x)
        else known_at bytes.old.items x)) }
{
    let first = choice.access.address();
    for place in 0..choice.access.byte_count() {
        let known = TouchedByte {
            address: first + place,
            ..byte_known(bytes, first + place)
        };
        set_byte(
            bytes,
            byte_left(choice, &known, place as usize, behind, needs),
        )?;
    }
    Ok(())
}

/// What is kept of bytes behind an instruction.
pub(crate) fn bytes_left(
    bytes: &Vec<TouchedByte>,
    choice: &Choice,
    behind: usize,
    needs: usize,
) -> Result<Vec<TouchedByte>, OutOfMemory>
    requires fits { address_of choice.now.access + bytes_of choice.now.access ≤ 2 ^ 64 }
    ensures { IfOk result (λ left. (x : ℕ) → known_at left.items x ≡
        (if (loads choice.now.access || stores choice.now.access) && covers choice.now.access x
        then byte_after choice.now behind needs x (known_at bytes.now.items x)
        else known_at bytes.now.items x)) }
{
    let mut left = Vec::from_slice(*bytes.allocator(), bytes)?;
    if choice.access.loads() || choice.access.stores() {
        touch(&mut left, choice, behind, needs)?;
        return Ok(left);
    }
    Ok(left)
}
