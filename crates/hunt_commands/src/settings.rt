ghost use Rattle.std.specs.Prelude.{◌≡◌, [], IfOk, Some, false};
ghost use Rattle.hunt_commands.specs.Settings.{HasEnd, HasNumbers, IsOfProgram, names_of, until_of};
ghost use Rattle.hunt_table.specs.Programs.{fingerprint_of};
ghost use Rattle.program_files.specs.Naming.{IsNaming, named_in, seen_ranges};

use command_line::{Bytes, Hunt, HuntUntil, Program, Search};
use hunt_table::{Fingerprint, Header};
use hunter::HuntSettings;
use plan_hunt::Until;
use program_files::{
    NamedBytes, ProgramFiles, World, format_of, named_bytes, seen_ranges, tell_of_decimals,
};
use std::alloc::{AllocError, Global};

/// The bytes that are looked at when a run ends.
///
/// # Errors
///
/// The allocator's alone.
pub fn named_in(
    alloc: Global,
    search: &Search<'_>,
    files: &ProgramFiles,
) -> Result<NamedBytes, AllocError>
    ensures bytes { IfOk result (λ n. n.bytes.items ≡
        named_in files.now.image.items search.now.seen.items (names_of search.now)) }
    ensures fault { IfOk result (λ n. IsNaming files.now.image.items search.now.program.pages
        search.now.seen.items (names_of search.now) n.fault) }
{
    named_bytes(
        alloc,
        &files.image,
        search.program.pages,
        &search.seen,
        &search.objects,
    )
}

/// Says on standard error how a decimal address was read that would be one of the image in hexadecimal, too.
pub fn tell_decimals<W: World>(search: &Search<'_>, files: &ProgramFiles, world: &W) {
    tell_of_decimals(world, &files.image, search.program.flat, &search.seen);
}

/// What the line says of a hunt by so many plans from a first one on, with these bytes, which the line names, to be looked at when a
/// run ends.
///
/// # Errors
///
/// The allocator's alone.
pub fn settings_of(
    alloc: Global,
    search: &Search<'_>,
    named: &[Bytes],
    first: u32,
    count: u32,
    is_weak: bool,
) -> Result<HuntSettings, AllocError>
    ensures numbers { IfOk result (HasNumbers search.now first count is_weak) }
    ensures ranges { IfOk result (λ s. s.header.ranges.items ≡
        seen_ranges named.now (names_of search.now)) }
{
    let ranges = seen_ranges(alloc, named, &search.objects)?;
    let mut settings = program_settings(alloc, &search.program, search.seed);
    settings.header.is_weak = is_weak;
    settings.header.first = first;
    settings.header.count = count;
    settings.header.ranges = ranges;
    Ok(settings)
}

/// What the line says of a hunt of a program with this image, with these bytes, which it names, to be looked at when a run ends.
///
/// # Errors
///
/// The allocator's alone.
pub(crate) fn hunt_settings(
    alloc: Global,
    asked: &Hunt<'_>,
    named: &[Bytes],
    image: &[u8],
) -> Result<HuntSettings, AllocError>
    ensures numbers { IfOk result (HasNumbers asked.now.search asked.now.first asked.now.plans
        asked.now.weak) }
    ensures ends { IfOk result (HasEnd asked.now) }
    ensures program { IfOk result (λ s. s.header.program ≡ Some (fingerprint_of image.now)) }
    ensures ranges { IfOk result (λ s. s.header.ranges.items ≡
        seen_ranges named.now (names_of asked.now.search)) }
{
    let mut settings = settings_of(
        alloc,
        &asked.search,
        named,
        asked.first,
        asked.plans,
        asked.weak,
    )?;
    settings.header.program = Some(Fingerprint::of(image));
    settings.until = until_of(asked.until);
    settings.is_timed = asked.seconds.is_some();
    Ok(settings)
}

/// With which ending a hunt is over before its last number.
fn until_of(asked: Option<HuntUntil>) -> Until
    ensures { result ≡ until_of asked }
{
    match asked {
        None => Until::Done,
        Some(HuntUntil::Bad) => Until::Bad,
        Some(HuntUntil::Differ) => Until::Differ,
    }
}

/// What the line says of a program, as settings of a hunt by no plan of a seed, in which no bytes are looked at, and whose table tells of no
/// program.
pub fn program_settings(alloc: Global, program: &Program<'_>, seed: u64) -> HuntSettings
    ensures program { IsOfProgram program.now seed result }
    ensures plain { result.header.is_weak ≡ false }
    ensures unseen { result.header.ranges.items ≡ [] }
{
    HuntSettings {
        format: format_of(program),
        harts: program.harts,
        pages: program.pages,
        rounds: program.rounds,
        workers: program.workers,
        header: Header {
            is_weak: false,
            seed,
            first: 0,
            count: 0,
            program: None,
            ranges: Vec::new(alloc),
        },
        until: Until::Done,
        is_timed: false,
    }
}
