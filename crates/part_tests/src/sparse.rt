//! Many stores and loads by chance, on guest memory and on plain bytes.

use crate::guest_memory::store;
use pages::{OutOfMemory, Pages, Store, Width};
use std::alloc::{AllocError, Global};
use std::test::Fail;

fn next(seed: &mut u64) -> u64 {
    *seed = seed
        .wrapping_mul(6_364_136_223_846_793_005)
        .wrapping_add(1_442_695_040_888_963_407);
    *seed >> 33
}

/// A store at a multiple of its width, or a load of as many bytes.
fn access(seed: &mut u64) -> Store {
    let width = match next(seed) % 4 {
        0 => Width::W1,
        1 => Width::W2,
        2 => Width::W4,
        _ => Width::W8,
    };
    Store {
        address: next(seed) % 16400 & !(width.bytes() - 1),
        width,
        value: next(seed).wrapping_mul(0x1_0000_0003),
    }
}

/// Some bytes that are 0.
fn zeros(alloc: Global, count: usize) -> Result<Vec<u8>, AllocError> {
    vec![in alloc; 0; count]
}

/// Writes a store byte by byte.
fn write(bytes: &mut [u8], s: Store) {
    for (k, byte) in s.value.to_le_bytes().iter().enumerate() {
        if (k as u64) < s.width.bytes() {
            if let Some(place) = bytes.get_mut((s.address as usize).wrapping_add(k)) {
                *place = *byte;
            }
        }
    }
}

/// The number in bytes of memory, if it lies in them.
fn number_of(bytes: &[u8], address: u64, width: Width) -> Option<u64> {
    let mut number = 0u64;
    for k in (0..width.bytes()).rev() {
        let byte = bytes.get(address.checked_add(k)? as usize)?;
        number = number.wrapping_mul(256) | u64::from(*byte);
    }
    Some(number)
}

/// Does 4,000 stores, and says whether pages and bytes took the same ones, and a load after each gave the same.
fn agree(alloc: Global, p: &mut Pages, bytes: &mut [u8]) -> Result<bool, OutOfMemory> {
    let mut seed = 1;
    for _ in 0..4000 {
        let s = access(&mut seed);
        if store(alloc, p, s)? != number_of(bytes, s.address, s.width).is_some() {
            return Ok(false);
        }
        write(bytes, s);
        let load = access(&mut seed);
        if p.read(load.address, load.width).ok() != number_of(bytes, load.address, load.width) {
            return Ok(false);
        }
    }
    Ok(true)
}

#[test]
fn sparse_pages_are_bytes(rt: HostRuntime) -> Result<(), Fail> {
    let mut bytes = zeros(rt.alloc(), 16384)?;
    let mut p = Pages::new(rt.alloc(), 4, &[], &[])?;
    assert!(rt; agree(rt.alloc(), &mut p, &mut bytes)?);
    Ok(())
}
