ghost use Rattle.std.specs.Prelude.{◌≡◌, ◌⊎◌, ℕ, [], All, Err, IfErr, IfOk, IsTrue, List, None, Some, false};
ghost use Rattle.endings_table.specs.declared.others.Others.TheVariants.{Absent};
ghost use Rattle.host_io.specs.declared.load_error.LoadError.{LoadError as ImageCause};
ghost use Rattle.host_io.specs.declared.error.RunError.TheVariants as refusals;
ghost use Rattle.host_io.specs.Writes.{IsFaultOr, WritesAnswer};
ghost use Rattle.hunter.specs.Hunts.{IsHuntReason, IsImageCause, has_bad_range, hunt_fault};
ghost use Rattle.hunter.specs.declared.error.HuntError.{HuntError as Refusal};
ghost use Rattle.hunter.specs.declared.error.HuntError.TheVariants.{Run};
ghost use Rattle.endings_finder.specs.AllEndings.{AreAllowed, AreConfirmed, AreKept, AreToldFences, HasAll, IsSearchText, IsSearched, guest_from, guest_of, scripted_image};
ghost use Rattle.endings_finder.specs.Fences.{IsToldFence};

use crate::confirming::Confirmed;
use crate::fences::needs_of;
use crate::guest::Guest;
use crate::others::{Reach, others_than};
use crate::program::Program;
use crate::proposing::{Proposals, proposals_of};
use crate::searching::EndingsObserver;
use crate::settings::EndingsSettings;
use endings_table::{EndingsTable, FenceNeed, Others, write_endings};
use execution_makers::ScriptedGuest;
use execution_scripts::ExecutionFile;
use host_io::Sink;
use hunter::{HuntError, check_hunt, check_ranges};
use machine::load;
use pages::OutOfMemory;
use std::alloc::Global;
use std::thread::Threads;

/// What a search for all endings found.
#[derive(Drop)]
pub struct FoundEndings {
    /// What it tells.
    pub table: EndingsTable,
    /// The execution of each ending, where they were to be kept.
    pub executions: Vec<ExecutionFile>,
    /// How many endings the judge refused, each by a fault of dethart.
    pub refused: u64,
}

/// The parts of a table that a search finds.
#[derive(Drop)]
struct Findings {
    nodes: u64,
    confirmed: Confirmed,
    others: Others,
    fences: Vec<FenceNeed>,
}

/// Searches for all endings of a guest, and writes the table of those that were found, and of whether it has others. Each was put to the
/// judge of endings. The check of others is shared among the workers of the settings. The observer looks on.
///
/// # Errors
///
/// The refusals of the settings, then of the image, then of the ranges; `OutOfMemory`; `SinkFailed`. Nothing is written before the search is
/// over.
pub fn find_endings<S: Sink, O: EndingsObserver, R: Threads + Sync>(
    rt: &R,
    alloc: Global,
    image: &[u8],
    input: &[u8],
    settings: EndingsSettings,
    observer: &mut O,
    out: &mut S,
) -> Result<FoundEndings, HuntError>
    // RVWMO allows an execution that ends so for each ending; where the table says that there are no others, it has all; an execution of each
    // is kept, if they are asked for; and the sink takes the table's text.
    ensures writes { WritesAnswer S.took S.failures (IsSearchText settings image.now input.now)
        (IsFaultOr (hunt_fault settings.hunt) (IsHuntReason settings.hunt image.now))
        (Run refusals.OutOfMemory) (Run refusals.SinkFailed) out.old out.new result }
    // Where memory is refused, it took nothing.
    ensures memory { result ≡ Err (Run refusals.OutOfMemory) → S.took out.new ≡ S.took out.old }
    // Settings out of range are refused first, and then an image.
    ensures settings { (e : Refusal) → hunt_fault settings.hunt ≡ Some e → result ≡ Err e }
    ensures image { (cause : ImageCause) → hunt_fault settings.hunt ≡ None →
        IsImageCause settings.hunt image.now cause →
        (result ≡ Err (Run (refusals.Image cause))) ⊎ (result ≡ Err (Run refusals.OutOfMemory)) }
    // No search looks at a range that is empty, or not all in memory.
    ensures ranges { IfOk result (λ _. has_bad_range settings.hunt ≡ false) }
{
    let findings = searched(rt, alloc, image, input, &settings, observer)?;
    let found = told(findings, settings);
    write_endings(alloc, &found.table, out)?;
    Ok(found)
}

/// What is told of the findings.
fn told(findings: Findings, settings: EndingsSettings) -> FoundEndings
    ensures table { (file input : List ℕ) →
        AreAllowed (guest_of settings.hunt file input) settings.hunt.header.ranges.items
        findings.confirmed.endings.items →
        (findings.others ≡ Absent →
        HasAll (guest_of settings.hunt file input) settings.hunt.header.ranges.items settings.steps
        findings.confirmed.endings.items) →
        (settings.fences ≡ false → findings.fences.items ≡ []) →
        AreToldFences settings file input findings.fences.items →
        IsSearched settings file input result.table }
    ensures kept { AreKept settings.keeps findings.confirmed.endings.items
        findings.confirmed.executions.items →
        AreKept settings.keeps result.table.endings.items result.executions.items }
{
    let Findings {
        nodes,
        confirmed,
        others,
        fences,
    } = findings;
    let Confirmed {
        endings,
        executions,
        refused,
    } = confirmed;
    FoundEndings {
        table: EndingsTable {
            harts: settings.hunt.harts,
            nodes,
            steps: settings.steps,
            endings,
            others,
            fences,
            ranges: settings.into_ranges(),
        },
        executions,
        refused,
    }
}

/// What a search finds. The image is loaded once, but for each fence that is looked at.
fn searched<O: EndingsObserver, R: Threads + Sync>(
    rt: &R,
    alloc: Global,
    image: &[u8],
    input: &[u8],
    settings: &EndingsSettings,
    observer: &mut O,
) -> Result<Findings, HuntError>
    ensures confirmed { IfOk result (λ f. AreConfirmed
        (guest_of settings.now.hunt image.now input.now) settings.now.hunt.header.ranges.items
        settings.now.keeps f.confirmed.endings.items f.confirmed.executions.items) }
    ensures all { IfOk result (λ f. f.others ≡ Absent →
        HasAll (guest_of settings.now.hunt image.now input.now)
        settings.now.hunt.header.ranges.items settings.now.steps f.confirmed.endings.items) }
    ensures unasked { IfOk result (λ f. settings.now.fences ≡ false → f.fences.items ≡ []) }
    ensures fences { IfOk result (λ f.
        AreToldFences settings.now image.now input.now f.fences.items) }
    ensures settings { (e : Refusal) → hunt_fault settings.now.hunt ≡ Some e → result ≡ Err e }
    ensures errors { hunt_fault settings.now.hunt ≡ None →
        IfErr result (λ e. IsHuntReason settings.now.hunt image.now e) }
    ensures image { (cause : ImageCause) → hunt_fault settings.now.hunt ≡ None →
        IsImageCause settings.now.hunt image.now cause →
        (result ≡ Err (Run (refusals.Image cause))) ⊎ (result ≡ Err (Run refusals.OutOfMemory)) }
    ensures ranges { IfOk result (λ _. has_bad_range settings.now.hunt ≡ false) }
{
    let hunt = &settings.hunt;
    check_hunt(hunt)?;
    let loaded = load(alloc, hunt.format, image, hunt.pages)?;
    check_ranges(hunt)?;
    let program = Program::new(alloc, loaded)?;
    let guest = Guest {
        alloc,
        program: &program,
        scripted: ScriptedGuest {
            format: hunt.format,
            pages: hunt.pages,
            harts: hunt.harts,
            image,
            input,
        },
        ranges: &hunt.header.ranges,
        keeps: settings.keeps,
    };
    let findings = findings_of(rt, &guest, settings, observer)?;
    Ok(findings)
}

/// What a search in a guest finds.
fn findings_of<O: EndingsObserver, R: Threads + Sync>(
    rt: &R,
    guest: &Guest<'_>,
    settings: &EndingsSettings,
    observer: &mut O,
) -> Result<Findings, OutOfMemory>
    requires { guest.now.program.now ≡ scripted_image guest.now.scripted }
    ensures confirmed { IfOk result (λ f. AreConfirmed
        (guest_from guest.now.program.now guest.now.scripted) guest.now.ranges.now
        guest.now.keeps f.confirmed.endings.items f.confirmed.executions.items) }
    ensures all { IfOk result (λ f. f.others ≡ Absent →
        HasAll (guest_from guest.now.program.now guest.now.scripted) guest.now.ranges.now
        settings.now.steps f.confirmed.endings.items) }
    ensures unasked { IfOk result (λ f. settings.now.fences ≡ false → f.fences.items ≡ []) }
    ensures fences { IfOk result (λ f. All (IsToldFence settings.now.steps guest.now.program.now
        guest.now.scripted.input.now guest.now.scripted.harts guest.now.ranges.now)
        f.fences.items) }
{
    let reach = Reach::new(settings);
    let proposals = proposals_of(guest, reach, observer)?;
    let Proposals {
        nodes,
        confirmed,
        why,
        owned,
        fences,
    } = proposals;
    let endings = confirmed.endings.as_slice();
    let others = others_than(rt, guest, reach, endings, why, &owned, observer)?;
    let asked = are_asked(settings, others);
    let needs = needs_of(rt, guest, reach, endings, asked, &fences, observer)?;
    Ok(Findings {
        nodes,
        confirmed,
        others,
        fences: needs,
    })
}

/// Whether it is asked which fences a guest needs that may have such others: only where it has none is known what is new without a fence.
fn are_asked(settings: &EndingsSettings, others: Others) -> bool
    ensures unasked { settings.now.fences ≡ false → result ≡ false }
    ensures absent { IsTrue result → others ≡ Absent }
{
    settings.fences && others == Others::Absent
}
