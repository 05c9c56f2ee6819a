//! The stores of a hart in a round, through the public calls of the crate `store_buffer`.

ghost use Rattle.std.specs.Prelude.{◌≡◌, ◌%◌, ◌<◌, ◌≤◌};
ghost use Rattle.pages.specs.Memory.{width_bytes};

use crate::loads::{are_read, are_read_over};
use pages::Width::{W1, W2, W4, W8};
use pages::{Fault, OutOfMemory, Pages, Piece, Store, Width};
use std::alloc::Global;
use std::test::Fail;
use store_buffer::StoreBuffer;

/// One page with the bytes 11 22 33 44 55 66 77 88 from 0x100 on.
fn memory(alloc: Global) -> Result<Pages, OutOfMemory> {
    let piece = Piece {
        start: 0x100,
        bytes: [0x11, 0x22, 0x33, 0x44, 0x55, 0x66, 0x77, 0x88].to_vec(alloc)?,
    };
    Pages::new(alloc, 1, &[piece], &[])
}

/// What loads give with nothing stored.
static STORED_NOTHING: [(u64, Width, Result<u64, Fault>); 2] = [
    (0x100, W8, Ok(0x8877_6655_4433_2211)),
    (0x102, W2, Ok(0x4433)),
];

/// The same after a byte aa at 0x103.
static STORED_A_BYTE: [(u64, Width, Result<u64, Fault>); 6] = [
    (0x100, W8, Ok(0x8877_6655_aa33_2211)),
    (0x102, W2, Ok(0xaa33)),
    (0x104, W4, Ok(0x8877_6655)),
    (0x103, W1, Ok(0xaa)),
    (0x103, W2, Err(Fault::LoadMisaligned)),
    (0x1000, W8, Err(Fault::LoadOutside)),
];

/// Whether loads give what they are to with nothing stored, after a byte, after a doubleword, from memory itself, and after
/// a clear.
fn are_loaded(p: &Pages, buffer: &mut StoreBuffer) -> Result<[bool; 5], OutOfMemory> {
    let before = are_read_over(buffer, p, STORED_NOTHING.as_slice());
    buffer.put(Store {
        address: 0x103,
        width: W1,
        value: 0xaa,
    })?;
    let byte = are_read_over(buffer, p, STORED_A_BYTE.as_slice());
    buffer.put(Store {
        address: 0x100,
        width: W8,
        value: 0x1020_3040_5060_7080,
    })?;
    let doubleword = are_read_over(buffer, p, &[(0x100, W8, Ok(0x1020_3040_5060_7080))]);
    let beneath = are_read(p, STORED_NOTHING.as_slice());
    buffer.clear();
    let after = buffer.is_empty() && are_read_over(buffer, p, STORED_NOTHING.as_slice());
    Ok([before, byte, doubleword, beneath, after])
}

#[test]
fn bytes_over_memory(rt: HostRuntime) -> Result<(), Fail> {
    let p = memory(rt.alloc())?;
    let mut buffer = StoreBuffer::new(rt.alloc());
    let loaded = are_loaded(&p, &mut buffer)?;
    assert_eq!(rt; loaded, [true; 5]);
    Ok(())
}

/// The buffer of a doubleword at 0x40, and a byte before it.
fn two_stores(alloc: Global) -> Result<StoreBuffer, OutOfMemory> {
    let mut buffer = StoreBuffer::new(alloc);
    buffer.put(Store {
        address: 0x40,
        width: W8,
        value: 0x1122_3344_5566_7788,
    })?;
    buffer.put(Store {
        address: 0x3f,
        width: W1,
        value: 0xaa,
    })?;
    Ok(buffer)
}

/// The bytes from 0x3f on.
static BYTES: [u64; 9] = [0xaa, 0x88, 0x77, 0x66, 0x55, 0x44, 0x33, 0x22, 0x11];

/// Whether a buffer gives these bytes and no more.
fn gives_bytes(buffer: &StoreBuffer) -> bool {
    let mut given = buffer.stores();
    for (k, byte) in BYTES.iter().enumerate() {
        let want = Store {
            address: 0x3f + k as u64,
            width: W1,
            value: *byte,
        };
        if given.next() != Some(want) {
            return false;
        }
    }
    given.next().is_none()
}

#[test]
fn bytes_as_stores(rt: HostRuntime) -> Result<(), Fail> {
    let none = StoreBuffer::new(rt.alloc());
    assert!(rt; none.is_empty() && none.stores().next().is_none());
    let buffer = two_stores(rt.alloc())?;
    assert!(rt; gives_bytes(&buffer) && !buffer.is_empty());
    Ok(())
}

/// Whether a buffer gives the two lines of those bytes and no more: by their start, their mask, and a byte of each.
fn gives_lines(buffer: &StoreBuffer) -> bool {
    let mut lines = buffer.lines();
    for (wanted, mask, place, byte) in [(0, 1 << 63, 63, 0xaa), (0x40, 0xff, 0, 0x88)] {
        let Some((start, line)) = lines.next() else {
            return false;
        };
        if start != wanted || line.mask != mask || line.bytes.get(place).copied() != Some(byte) {
            return false;
        }
    }
    lines.next().is_none()
}

#[test]
fn bytes_as_lines(rt: HostRuntime) -> Result<(), Fail> {
    let buffer = two_stores(rt.alloc())?;
    assert!(rt; gives_lines(&buffer));
    Ok(())
}

/// The byte that is put to a line in a turn.
fn byte_of(line: u64, turn: u64) -> Store
    requires line { line < 3 }
    requires turn { turn < 3 }
    ensures { result.address % width_bytes result.width ≡ 0 }
{
    Store {
        address: 0x1000 * line + 0x40 + turn,
        width: Width::W1,
        value: 16 * line + turn,
    }
}

/// Puts a byte to each line in each turn.
fn put_in_turns(buffer: &mut StoreBuffer) -> Result<(), OutOfMemory> {
    for turn in 0..3 {
        for line in 0..3 {
            buffer.put(byte_of(line, turn))?;
        }
    }
    Ok(())
}

/// Whether a buffer gives these bytes line by line, and no more.
fn gives_line_by_line(buffer: &StoreBuffer) -> bool {
    let mut given = buffer.stores();
    for line in 0..3 {
        for turn in 0..3 {
            if given.next() != Some(byte_of(line, turn)) {
                return false;
            }
        }
    }
    given.next().is_none()
}

#[test]
fn lines_64_apart_are_told_apart(rt: HostRuntime) -> Result<(), Fail> {
    let mut buffer = StoreBuffer::new(rt.alloc());
    put_in_turns(&mut buffer)?;
    assert!(rt; gives_line_by_line(&buffer));
    Ok(())
}

/// The doubleword at the start of a line, with the line's number as its value.
fn first_of(line: u64) -> Store
    requires { line < 1_000_000 }
    ensures { result.address % width_bytes result.width ≡ 0 }
{
    Store {
        address: 64 * line,
        width: Width::W8,
        value: line,
    }
}

/// 1,500 lines that stand so far apart, the last of them put first.
fn lines_apart(alloc: Global, step: u64) -> Result<StoreBuffer, OutOfMemory>
    requires { step ≤ 64 }
{
    let mut buffer = StoreBuffer::new(alloc);
    for k in 0..1_500 {
        buffer.put(first_of(step * (1_499 - k)))?;
    }
    Ok(buffer)
}

/// Whether the doubleword of a line is read, and 0 behind that line where no other follows at once.
fn is_read(p: &Pages, buffer: &StoreBuffer, line: u64, follows: bool) -> bool
    requires { line < 1_000_000 }
{
    let address = 64 * line;
    buffer.read_over(p, address, Width::W8) == Ok(line)
        && (follows || buffer.read_over(p, address + 64, Width::W8) == Ok(0))
}

/// Whether the 1,500 lines that stand so far apart are read, and are all lines of a buffer.
fn are_found(p: &Pages, buffer: &StoreBuffer, step: u64) -> bool
    requires { step ≤ 64 }
{
    let mut lines = buffer.lines();
    for k in 0..1_500 {
        let Some((start, line)) = lines.next() else {
            return false;
        };
        if start != 64 * step * k || line.mask != 0xff || !is_read(p, buffer, step * k, step == 1) {
            return false;
        }
    }
    lines.next().is_none()
}

#[test]
fn many_lines_are_found(rt: HostRuntime) -> Result<(), Fail> {
    let p = Pages::new(rt.alloc(), 1_600, &[], &[])?;
    for step in [1, 2, 63, 64] {
        let buffer = lines_apart(rt.alloc(), step)?;
        assert!(rt; are_found(&p, &buffer, step));
    }
    Ok(())
}

fn next(seed: &mut u64) -> u64 {
    *seed = seed
        .wrapping_mul(6_364_136_223_846_793_005)
        .wrapping_add(1_442_695_040_888_963_407);
    *seed >> 33
}

/// A store at a multiple of its width, or a load of as many bytes.
fn access(seed: &mut u64) -> Store
    ensures { result.address % width_bytes result.width ≡ 0 }
{
    let width = match next(seed) % 4 {
        0 => Width::W1,
        1 => Width::W2,
        2 => Width::W4,
        _ => Width::W8,
    };
    Store {
        address: next(seed) % (0x1000 / width.bytes()) * width.bytes(),
        width,
        value: next(seed).wrapping_mul(0x1_0000_0003),
    }
}

/// The byte that the last covering store of a list puts at an address, else the other one.
fn last_byte(stores: &[Store], address: u64, other: u8) -> u8 {
    for s in stores.iter().rev() {
        if s.address <= address && address - s.address < s.width.bytes() {
            return (s.value >> (8 * (address - s.address)) & 0xff) as u8;
        }
    }
    other
}

/// The number that a load gives under a list of stores.
fn number_under(p: &Pages, stores: &[Store], address: u64, width: Width) -> u64 {
    let mut number = 0u64;
    for k in (0..width.bytes()).rev() {
        let address = address.wrapping_add(k);
        let byte = match p.read(address, Width::W1) {
            Ok(byte) => byte as u8,
            Err(_) => 0,
        };
        number = number.wrapping_mul(256) | u64::from(last_byte(stores, address, byte));
    }
    number
}

/// Puts 10,000 stores, and says whether a load after each gives what the stores so far put there.
fn loads_agree(
    p: &Pages,
    buffer: &mut StoreBuffer,
    stores: &mut Vec<Store>,
) -> Result<bool, OutOfMemory> {
    let mut seed = 1;
    for _ in 0..10_000 {
        let s = access(&mut seed);
        buffer.put(s)?;
        stores.push(s)?;
        let load = access(&mut seed);
        let number = number_under(p, stores, load.address, load.width);
        if buffer.read_over(p, load.address, load.width) != Ok(number) {
            return Ok(false);
        }
    }
    Ok(true)
}

/// Whether the bytes of a buffer go up, and each is what the last covering store of a list put there.
fn bytes_agree(buffer: &StoreBuffer, stores: &[Store]) -> bool {
    let mut address = 0;
    for s in buffer.stores() {
        if s.address < address || s.value != u64::from(last_byte(stores, s.address, 0)) {
            return false;
        }
        address = s.address.wrapping_add(1);
    }
    true
}

#[test]
fn lines_are_stores(rt: HostRuntime) -> Result<(), Fail> {
    let p = memory(rt.alloc())?;
    let mut buffer = StoreBuffer::new(rt.alloc());
    let mut stores = Vec::new(rt.alloc());
    assert!(rt; loads_agree(&p, &mut buffer, &mut stores)?);
    assert!(rt; bytes_agree(&buffer, &stores));
    Ok(())
}
