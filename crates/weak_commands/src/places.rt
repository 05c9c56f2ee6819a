//! The fences that are assumed, as a command line names them.
ghost use Rattle.std.specs.Prelude.{◌≡◌, ◌≤◌, [], ◌∷◌, ◌++◌, IfErr, IfOk, OnOk, None, Some, map};
ghost use Rattle.std.specs.Char.{is_ascii_hexdigit};
ghost use Rattle.std.specs.List.{list_all, list_any};
ghost use Rattle.command_line.specs.Reading.{number_in};
ghost use Rattle.weak_commands.specs.Places.{AreFences, IsAssumed, IsFence, IsFenceAt, IsInstruction, IsMisplaced, IsNamed, IsNoPlace, IsOfKind, IsUnplaced, address_of, between, full_before, has_address, is_instruction, on_code, place_in, printed_pc, set_of};

use command_line::address_in;
use elf_loader::{find_function, has_other_function, has_symbol_table};
use host_io::RunError;
use hunter::{HuntSettings, check_hunt};
use machine::load;
use pages::Range;
use program_files::{CommandFailure, Misplaced, World};
use rv64_decode::FenceSet;
use std::alloc::{AllocFailed, Global};
use timed_machine::AssumedFence;

/// The fences that words name. Settings and an image that are refused for themselves are left to the search. It is
/// told where two of the words name the same instruction.
///
/// # Errors
///
/// `NoPlace` for the first word that names none; the refusal of memory.
pub(crate) fn fences_of<W: World>(
    alloc: Global,
    words: &[&str],
    settings: &HuntSettings,
    file: &[u8],
    world: &W,
) -> Result<Vec<AssumedFence>, CommandFailure>
    ensures assumed { IfOk result (λ fences.
        IsAssumed (map (λ s. s.now) words.now) settings.now file.now fences.items) }
    ensures errors { IfErr result (IsUnplaced (map (λ s. s.now) words.now) settings.now file.now) }
{
    if words.is_empty() {
        return Ok(Vec::new(alloc));
    }
    let Ok(()) = check_hunt(settings) else {
        return Ok(Vec::new(alloc));
    };
    match load(alloc, settings.format, file, settings.pages) {
        Ok(image) => fences_in(alloc, words, file, image.code(), world),
        Err(RunError::OutOfMemory) => Err(CommandFailure::from(RunError::OutOfMemory)),
        Err(_) => Ok(Vec::new(alloc)),
    }
}

/// The same in the code of an image.
fn fences_in<W: World>(
    alloc: Global,
    words: &[&str],
    file: &[u8],
    code: &[Range],
    world: &W,
) -> Result<Vec<AssumedFence>, CommandFailure>
    ensures named { IfOk result (λ fences.
        AreFences file.now code.now (map (λ s. s.now) words.now) [] fences.items) }
    ensures errors { IfErr result (IsMisplaced file.now code.now (map (λ s. s.now) words.now)) }
{
    let mut fences = Vec::new(alloc);
    for word in words {
        match fence_of(file, code, word) {
            Ok(fence) => add(&mut fences, fence, word, world)?,
            Err(why) => return Err(no_place(alloc, word, why)),
        }
    }
    Ok(fences)
}

/// Adds a fence. It is told where one stands before the same instruction.
fn add<W: World>(
    fences: &mut Vec<AssumedFence>,
    fence: AssumedFence,
    word: &str,
    world: &W,
) -> Result<(), AllocFailed<AssumedFence>>
    ensures { OnOk result (fences.new.items ≡ fences.old.items ++ fence ∷ []) }
{
    if has_fence_at(fences, fence.pc) {
        world.tell(format_args!(
            "--as-if-fence {word} names the same instruction as one before it"
        ));
    }
    fences.push(fence)
}

/// Whether a fence stands before the instruction at an address.
fn has_fence_at(fences: &[AssumedFence], pc: u64) -> bool {
    fences.iter().any(|fence| fence.pc == pc)
}

/// The failure of a word that names no fence.
fn no_place(alloc: Global, word: &str, why: Misplaced) -> CommandFailure
    ensures { IsNoPlace word.now why result }
{
    match String::from_str(alloc, word) {
        Ok(word) => CommandFailure::NoPlace(word, why),
        Err(_) => CommandFailure::from(RunError::OutOfMemory),
    }
}

/// The fence that a word names: an instruction, and behind `=` the kind of the fence before it, where it isn't a full one.
fn fence_of(file: &[u8], code: &[Range], word: &str) -> Result<AssumedFence, Misplaced>
    ensures { IsFence file.now code.now word.now result }
{
    match word.split_once("=") {
        Some((place, kind)) => fence_at(file, code, place, kind),
        None => full(instruction_of(file, code, word)),
    }
}

/// A full fence before an instruction, if there is one.
fn full(place: Result<u64, Misplaced>) -> Result<AssumedFence, Misplaced>
    ensures { result ≡ full_before place }
{
    let pc = place?;
    let all = FenceSet {
        reads: true,
        writes: true,
    };
    Ok(AssumedFence {
        pc,
        before: all,
        after: all,
    })
}

/// A fence of the kind that a word names, before the instruction that another one names.
fn fence_at(file: &[u8], code: &[Range], place: &str, kind: &str) -> Result<AssumedFence, Misplaced>
    ensures { IsFenceAt file.now code.now place.now kind.now result }
{
    of_kind(instruction_of(file, code, place), kind)
}

/// A fence of the kind that a word names before an instruction, if there is one.
fn of_kind(place: Result<u64, Misplaced>, kind: &str) -> Result<AssumedFence, Misplaced>
    ensures { IsOfKind kind.now place result }
{
    match kind.split_once(",") {
        Some((before, after)) => {
            let first = set_of(before);
            let second = set_of(after);
            between(place, first, second)
        }
        None => of_no_kind(place),
    }
}

/// No fence, since no kind is named.
fn of_no_kind(place: Result<u64, Misplaced>) -> Result<AssumedFence, Misplaced>
    ensures { result ≡ between place None None }
{
    let _pc = place?;
    Err(Misplaced::NoKind)
}

/// A fence before an instruction that keeps these in order, if they are named.
fn between(
    place: Result<u64, Misplaced>,
    before: Option<FenceSet>,
    after: Option<FenceSet>,
) -> Result<AssumedFence, Misplaced>
    ensures { result ≡ between place before after }
{
    let pc = place?;
    match before {
        Some(before) => match after {
            Some(after) => Ok(AssumedFence { pc, before, after }),
            None => Err(Misplaced::NoKind),
        },
        None => Err(Misplaced::NoKind),
    }
}

/// The loads and stores that a word names, as assemblers write them.
fn set_of(word: &str) -> Option<FenceSet>
    ensures { result ≡ set_of word.now }
{
    if word == "r" {
        Some(FenceSet {
            reads: true,
            writes: false,
        })
    } else if word == "w" {
        Some(FenceSet {
            reads: false,
            writes: true,
        })
    } else if word == "rw" {
        Some(FenceSet {
            reads: true,
            writes: true,
        })
    } else {
        None
    }
}

/// The address of the instruction that a word names.
fn instruction_of(file: &[u8], code: &[Range], word: &str) -> Result<u64, Misplaced>
    ensures { IsInstruction file.now code.now word.now result }
{
    on_code(code, named(file, word))
}

/// The address that a word names: as a table of missing fences prints it, or in another way as an address.
fn named(file: &[u8], word: &str) -> Result<u64, Misplaced>
    ensures { IsNamed file.now word.now result }
{
    match word.split_once("+0x") {
        Some((function, digits)) => place_in(file, function, digits),
        None => address_of(word),
    }
}

/// The same, if there is an instruction at the address.
fn on_code(code: &[Range], found: Result<u64, Misplaced>) -> Result<u64, Misplaced>
    ensures { result ≡ on_code code.now found }
{
    let pc = found?;
    if is_instruction(code, pc) {
        Ok(pc)
    } else {
        Err(Misplaced::NotCode)
    }
}

/// Whether there is an instruction at an address.
fn is_instruction(code: &[Range], pc: u64) -> bool
    ensures { result ≡ is_instruction code.now pc }
{
    pc % 4 == 0 && is_code(code, pc)
}

/// Whether a range of code has the byte at an address.
fn is_code(code: &[Range], address: u64) -> bool
    ensures { result ≡ list_any (has_address address) code.now }
{
    code.iter().any(|range| has(range, address))
}

/// Whether a range has the byte at an address.
fn has(range: &Range, address: u64) -> bool
    ensures { result ≡ has_address address range.now }
{
    range.start <= address && address - range.start < range.len
}

/// The address that a word is: by the 16 digits that are printed, or in another way.
fn address_of(word: &str) -> Result<u64, Misplaced>
    ensures { result ≡ address_of word.now }
{
    match printed_pc(word) {
        Some(pc) => Ok(pc),
        None => match address_in(word) {
            Some(pc) => Ok(pc),
            None => Err(Misplaced::Unreadable),
        },
    }
}

/// The address of which these are the 16 digits that are printed.
fn printed_pc(word: &str) -> Option<u64>
    ensures { result ≡ printed_pc word.now }
{
    if word.len() == 16 && are_digits(word.as_bytes()) {
        number_in(word)
    } else {
        None
    }
}

/// Whether bytes are hexadecimal digits.
fn are_digits(bytes: &[u8]) -> bool
    ensures { result ≡ list_all is_ascii_hexdigit bytes.now }
{
    bytes.iter().all(|byte| byte.is_ascii_hexdigit())
}

/// The number of 64 bits that hexadecimal digits are.
fn number_in(digits: &str) -> Option<u64>
    ensures { result ≡ number_in 64 16 digits.now }
{
    u64::from_str_radix(digits, 16).ok()
}

/// The address that is so many bytes, in hexadecimal digits, behind the first one of a function.
fn place_in(file: &[u8], function: &str, digits: &str) -> Result<u64, Misplaced>
    ensures { result ≡ place_in file.now function.now digits.now }
{
    let Some(offset) = number_in(digits) else {
        return Err(Misplaced::Unreadable);
    };
    if !has_symbol_table(file) {
        return Err(Misplaced::NoSymbols);
    }
    let Some(found) = find_function(file, function.as_bytes()) else {
        return Err(Misplaced::NoFunction);
    };
    if has_other_function(file, function.as_bytes(), found.address) {
        return Err(Misplaced::Several);
    }
    if offset < found.length {
        Ok(found.address.saturating_add(offset))
    } else {
        Err(Misplaced::Beyond)
    }
}
