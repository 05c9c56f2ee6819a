//! Objects of the image by their names.
ghost use Rattle.std.specs.Prelude.{◌≡◌, ◌++◌, IfOk, OnOk, map, option_map};
ghost use Rattle.program_files.specs.Naming.{IsNoObject, first_missing, objects_in, one_object};

use crate::fault::NamingFault;
use command_line::Bytes;
use elf_loader::{Object, find_object, has_other_object, has_symbol_table};
use std::alloc::{AllocError, Global};

/// The object that a name stands for: none where the image has none of this name, or has several, at different addresses.
#[tactic(auto, unfolding(crate::specs::Naming::one_object))]
pub fn one_object(image: &[u8], name: &str) -> Option<Object>
    ensures { result ≡ one_object image.now name.now }
{
    let object = find_object(image, name.as_bytes())?;
    if has_other_object(image, name.as_bytes(), object.address) {
        None
    } else {
        Some(object)
    }
}

/// Adds the bytes of the objects of these names, as far as each stands for one.
pub(crate) fn add_objects(
    image: &[u8],
    names: &[&str],
    bytes: &mut Vec<Bytes>,
) -> Result<(), AllocError>
    ensures { OnOk result (bytes.new.items ≡
        bytes.old.items ++ objects_in image.now (map (λ s. s.now) names.now)) }
{
    for name in names {
        if let Some(object) = one_object(image, name) {
            bytes.push(Bytes {
                address: object.address,
                length: object.length,
                is_decimal: false,
            })?;
        }
    }
    Ok(())
}

/// The first of the names that the image has no object of, or several.
pub(crate) fn first_missing<'a>(image: &[u8], names: &[&'a str]) -> Option<&'a str>
    ensures { option_map (λ s. s.now) result
        ≡ first_missing image.now (map (λ s. s.now) names.now) }
{
    for name in names {
        if one_object(image, name).is_none() {
            return Some(*name);
        }
    }
    None
}

/// The fault of a name of no object, or of several: it is `Several` where there are some.
///
/// # Errors
///
/// The allocator's alone.
pub fn no_object(alloc: Global, image: &[u8], name: &str) -> Result<NamingFault, AllocError>
    ensures { IfOk result (IsNoObject image.now name.now) }
{
    let text = String::from_str(alloc, name)?;
    if !has_symbol_table(image) {
        return Ok(NamingFault::NoSymbols(text));
    }
    if find_object(image, name.as_bytes()).is_some() {
        return Ok(NamingFault::Several(text));
    }
    Ok(NamingFault::NoObject(text, numbered_names(alloc, image, name)?))
}

/// The names with a dot and a number behind this one that the image has objects of, as those of a function's own static
/// variables.
fn numbered_names(alloc: Global, image: &[u8], name: &str) -> Result<String, AllocError> {
    let mut names = String::new(alloc);
    for number in 0..100u32 {
        let other = format!(in alloc; "{name}.{number}")?;
        if find_object(image, other.as_bytes()).is_some() {
            names.push_str(if names.is_empty() { "" } else { ", " })?;
            names.push_str(other.as_str())?;
        }
    }
    Ok(names)
}
