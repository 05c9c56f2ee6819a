ghost use Rattle.std.specs.Prelude.{◌≡◌, ◌++◌, ◌≤◌, ◌-◌, ◌^◌, IfOk, None, OnOk, Some, length, map, min, option_map};
ghost use Rattle.hunt_table.specs.Names.{name_of};
ghost use Rattle.program_files.specs.Naming.{by_address, by_name, seen_range, seen_ranges};

use command_line::Bytes;
use hunt_table::{RangeName, SeenRange};
use std::alloc::{AllocError, Global};

/// The ranges that are looked at when a run ends, of which the last are the objects of these names. A number of more than 32 bits
/// stands as the greatest of 32: memory has neither. An object has no name there where its name has a character that stands in
/// none.
///
/// # Errors
///
/// The allocator's alone.
pub fn seen_ranges(
    alloc: Global,
    named: &[Bytes],
    objects: &[&str],
) -> Result<Vec<SeenRange>, AllocError>
    ensures { IfOk result (λ v. v.items ≡ seen_ranges named.now (map (λ s. s.now) objects.now)) }
{
    let unnamed = named.len().saturating_sub(objects.len());
    let mut ranges = Vec::new(alloc);
    add_by_address(&named[..unnamed], &mut ranges)?;
    add_by_name(alloc, &named[unnamed..], objects, &mut ranges)?;
    Ok(ranges)
}

/// Adds the ranges of bytes that have no name.
fn add_by_address(bytes: &[Bytes], ranges: &mut Vec<SeenRange>) -> Result<(), AllocError>
    ensures { OnOk result (ranges.new.items ≡ ranges.old.items ++ map by_address bytes.now) }
{
    for range in bytes {
        ranges.push(seen_range(range, None))?;
    }
    Ok(())
}

/// Adds the ranges of the objects of these names.
fn add_by_name(
    alloc: Global,
    bytes: &[Bytes],
    names: &[&str],
    ranges: &mut Vec<SeenRange>,
) -> Result<(), AllocError>
    requires { length bytes.now ≤ length names.now }
    ensures { OnOk result (ranges.new.items ≡
        ranges.old.items ++ by_name bytes.now (map (λ s. s.now) names.now)) }
{
    for (index, range) in bytes.iter().enumerate() {
        let name = Vec::from_slice(alloc, names[index].as_bytes())?;
        ranges.push(seen_range(range, RangeName::of(name)))?;
    }
    Ok(())
}

/// A range, with its name where it has one.
fn seen_range(bytes: &Bytes, name: Option<RangeName>) -> SeenRange
    ensures { result ≡ seen_range bytes.now name }
{
    SeenRange {
        address: in_32_bits(bytes.address),
        length: in_32_bits(bytes.length),
        name,
    }
}

/// A number, and the greatest of 32 bits where it has more.
fn in_32_bits(number: u64) -> u32
    ensures { result ≡ min number (2 ^ 32 - 1) }
{
    u32::try_from(number).unwrap_or(u32::MAX)
}
