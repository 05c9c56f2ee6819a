ghost use Rattle.std.specs.Prelude.{◌≡◌, ◌≢◌, ◌≤◌, ◌⊎◌, ◌*◌, ◌%◌, true, false, length, IfErr, IfOk, Err};
ghost use Rattle.std.specs.List.{list_any};
ghost use Rattle.elf_loader.specs.Causes.{IsLeast};
ghost use Rattle.elf_loader.specs.Elf.{elf_image};
ghost use Rattle.elf_loader.specs.ElfCauses.{StandsInElf, has_table, is_entry, is_past_file};
ghost use Rattle.elf_loader.specs.ElfTests.{ArePieces, first_true, header_tests, segment_tests};
ghost use Rattle.elf_loader.specs.Segments.{code_of, segments_of};
ghost use Rattle.host_io.specs.declared.load_error.LoadError.{LoadError as Cause};
ghost use Rattle.host_io.specs.declared.load_error.LoadError.TheVariants as causes;
ghost use Rattle.pages.specs.Memory.{is_code};

use crate::field::{double_at, half_at, word_at};
use crate::header::{HEADER, has_magic, is_little_64, passes};
use crate::image::Image;
use crate::segment::{Segment, has_overlap, some_past_file, some_past_memory, some_writable_code};
use host_io::LoadError;
use pages::{MOST_PAGES, Piece, Range};
use std::alloc::{AllocError, Global};

/// The length of a program header.
const PROGRAM_HEADER: u16 = 56;

/// The most program headers.
const MOST_HEADERS: u16 = 64;

/// The type of an executable file.
const EXECUTABLE: u16 = 2;

/// The machine RISC-V.
const RISC_V: u16 = 243;

/// The type of a program header whose segment is loaded.
const LOADED: u32 = 1;

fn has_table(file: &[u8]) -> bool
    requires { 64 ≤ length file.now }
    ensures { result ≡ has_table file.now }
{
    let count = half_at(file, 56);
    let length = u64::from(PROGRAM_HEADER) * u64::from(count);
    half_at(file, 54) == PROGRAM_HEADER
        && 1 <= count
        && count <= MOST_HEADERS
        && !passes(file.len() as u64, double_at(file, 32), length)
}

/// Refuses what is wrong with the file's header, the least cause first.
fn check_header(file: &[u8]) -> Result<(), LoadError>
    ensures { result ≡ first_true (header_tests file.now) }
{
    if file.len() < HEADER {
        return Err(LoadError::TooShort);
    }
    if !has_magic(file) {
        return Err(LoadError::Magic);
    }
    if !is_little_64(file) {
        return Err(LoadError::Class);
    }
    if half_at(file, 16) != EXECUTABLE {
        return Err(LoadError::Type);
    }
    if half_at(file, 18) != RISC_V {
        return Err(LoadError::Machine);
    }
    if !has_table(file) {
        return Err(LoadError::HeaderTable);
    }
    Ok(())
}

#[tactic(auto, unfolding(crate::specs::Segments::segments_of))]
fn segments_of(alloc: Global, file: &[u8]) -> Result<Vec<Segment>, AllocError>
    requires header { 64 ≤ length file.now }
    requires table { has_table file.now ≡ true }
    ensures { IfOk result (λ v. v.items ≡ segments_of file.now) }
{
    let count = half_at(file, 56);
    let mut segments = Vec::new(alloc);
    let mut offset = double_at(file, 32) as usize;
    'headers: for _ in 0..count {
        if word_at(file, offset) == LOADED {
            segments.push(Segment::at(file, offset))?;
        }
        offset += PROGRAM_HEADER as usize;
    }
    Ok(segments)
}

/// Refuses what is wrong with the segments, the least cause first.
fn check_segments(segments: &[Segment], file: u64, memory: u64) -> Result<(), LoadError>
    ensures { result ≡ first_true (segment_tests file memory segments.now) }
{
    if some_past_file(segments, file) {
        return Err(LoadError::SegmentPastFile);
    }
    if some_past_memory(segments, memory) {
        return Err(LoadError::PastMemory);
    }
    if has_overlap(segments) {
        return Err(LoadError::SharedAddress);
    }
    if some_writable_code(segments) {
        return Err(LoadError::WritableCode);
    }
    Ok(())
}

fn code_of(alloc: Global, segments: &[Segment]) -> Result<Vec<Range>, AllocError>
    ensures { IfOk result (λ v. v.items ≡ code_of segments.now) }
{
    segments
        .iter()
        .filter(|segment| segment.is_executable())
        .map(|segment| segment.memory_range())
        .collect(alloc)
}

fn is_code(code: &[Range], address: u64) -> bool
    ensures { result ≡ is_code code.now address }
{
    code.iter().any(|range| range.start <= address && address - range.start < range.len)
}

fn is_entry(code: &[Range], entry: u64) -> bool
    ensures { result ≡ is_entry code.now entry }
{
    entry % 4 == 0
        && is_code(code, entry)
        && is_code(code, entry + 1)
        && is_code(code, entry + 2)
        && is_code(code, entry + 3)
}

/// The bytes of each segment that come from the file.
fn pieces_of(alloc: Global, file: &[u8], segments: &[Segment]) -> Result<Vec<Piece>, AllocError>
    requires { list_any (is_past_file (length file.now)) segments.now ≡ false }
    ensures { IfOk result (λ v. ArePieces file.now segments.now v.items) }
{
    let mut pieces = Vec::new(alloc);
    for segment in segments {
        let start = segment.offset as usize;
        let end = start + segment.file_len as usize;
        pieces.push(Piece {
            start: segment.address,
            bytes: Vec::from_slice(alloc, &file[start..end])?,
        })?;
    }
    Ok(pieces)
}

/// The image of an ELF64 file in guest memory of so many pages.
///
/// The segments are the program headers of type 1. A segment's bytes come from the file, those past its length in the
/// file are 0, and a segment with the flag X is code. No other field is read, and sums are exact.
///
/// # Errors
///
/// The least cause that stands in the file, as `LoadError` lists them, or `OutOfMemory`.
pub fn load_elf(alloc: Global, file: &[u8], pages: u32) -> Result<Image, LoadError>
    requires some_pages { 1 ≤ pages }
    requires few_pages { pages ≤ MOST_PAGES }
    ensures image { IfOk result (λ i. i ≡ elf_image file.now pages) }
    // A file is accepted only where no cause stands.
    ensures accepted { IfOk result (λ i. (cause : Cause) → StandsInElf file.now pages cause → ⊥) }
    // A cause that is answered stands, and is the least.
    ensures refused { IfErr result (λ e. e ≢ causes.OutOfMemory →
        IsLeast (StandsInElf file.now pages) e) }
    // Where causes stand, the least is answered, if memory doesn't run out.
    ensures exact { (cause : Cause) → IsLeast (StandsInElf file.now pages) cause →
        (result ≡ Err cause) ⊎ (result ≡ Err causes.OutOfMemory) }
{
    check_header(file)?;
    let segments = segments_of(alloc, file)?;
    check_segments(&segments, file.len() as u64, 4096 * u64::from(pages))?;
    let code = code_of(alloc, &segments)?;
    let entry = double_at(file, 24);
    if !is_entry(&code, entry) {
        return Err(LoadError::Entry);
    }
    Ok(Image {
        pieces: pieces_of(alloc, file, &segments)?,
        code,
        entry,
        pages,
    })
}
