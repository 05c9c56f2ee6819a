ghost use Rattle.std.specs.Prelude.{◌≡◌, ◌≤◌, All, if◌then◌else◌, length, IfOk};
ghost use Rattle.guest_rounds.specs.Guests.{opening_guest};
ghost use Rattle.trace.specs.Traced.{HasForm, opening_at};
ghost use Rattle.execution_checker.specs.Allowed.{IsJudged as Judges};
ghost use Rattle.execution_checker.specs.declared.verdict.Verdict.{Verdict};
ghost use Rattle.execution_file.specs.Turns.{AreNames};
ghost use Rattle.execution_file.specs.Views.{as_recorded};
ghost use Rattle.execution_scripts.specs.Courses.{HandsOn};
ghost use Rattle.execution_scripts.specs.Findings.{IsFound, guest_in, image_in};
ghost use Rattle.execution_scripts.specs.Misfits.{IsUnnamed};
ghost use Rattle.execution_scripts.specs.declared.checking.Finding.TheVariants as findings;
ghost use Rattle.execution_scripts.specs.declared.fault.Fault.{Fault as FaultFound};
ghost use Rattle.execution_scripts.specs.declared.fault.Halt.TheVariants as halts;

use crate::fault::{Fault, Halt};
use crate::following::Follower;
use crate::said::{Said, order_named_by};
use crate::way::Way;
use elf_loader::Image;
use execution_checker::{Execution, ScriptedStep, Verdict};
use execution_file::ExecutionFile;
use execution_views::{HartStep, Notes, Sights};
use host_io::RunError;
use machine::{Format, load};
use memory_order::Order;
use pages::{MOST_PAGES, OutOfMemory};
use round_schedule::MOST_HARTS;
use std::alloc::Global;
use trace::Trace;

/// What is found of a file.
#[derive(Clone, Copy, PartialEq, Eq)]
pub enum Finding {
    /// What the file says is no execution of its image and input.
    Fault(Fault),
    /// What the checker said of the execution that it says.
    Judged(Verdict),
}

/// A file that was checked.
#[derive(Drop)]
pub struct Checked {
    /// What was found.
    pub finding: Finding,
    /// The execution, as far as it goes.
    pub execution: Execution,
    /// Its script.
    pub script: Vec<ScriptedStep>,
    /// The order of its memory operations, by their indexes in the list of steps; empty where the file says no execution.
    pub order: Order,
    /// The bytes that memory opened with.
    pub opening: Trace,
    /// What is seen on its way; nothing where the file says no execution.
    pub sights: Sights,
}

/// Checks the execution of a file: whether its harts do what the file says, and whether RVWMO allows it in the file's order.
///
/// The verdict is on the script and the execution that are handed back: on the file's image and its input, from its harts at the
/// entry. In this execution the harts do what the file's lines and calls say, in the order that these say: each does as many steps as
/// its line says, reads the line's numbers, and ends as the line says. The order is the one that the file's turns name, whatever it has.
///
/// A fault is the first step that isn't as the file says: all before it are.
///
/// # Errors
///
/// The refusals of the numbers of harts and pages, then of the image; `OutOfMemory`.
pub fn check_file(
    alloc: Global,
    file: &ExecutionFile,
    asked: Option<HartStep>,
) -> Result<Checked, RunError>
    ensures { IfOk result (λ c.
        IsFound (guest_in (as_recorded file.now)) (as_recorded file.now) asked c.finding c) }
{
    let harts = file.harts.len();
    if harts < 1 || harts > MOST_HARTS as usize {
        return Err(RunError::HartsOutOfRange);
    }
    if file.pages < 1 || file.pages > MOST_PAGES {
        return Err(RunError::PagesOutOfRange);
    }
    let image = load_image(alloc, file)?;
    check_over(alloc, file, image, asked)
}

/// The image of a file.
fn load_image(alloc: Global, file: &ExecutionFile) -> Result<Image, RunError>
    requires some_pages { 1 ≤ file.now.pages }
    requires few_pages { file.now.pages ≤ MOST_PAGES }
    ensures { IfOk result (λ i. i ≡ image_in (as_recorded file.now)) }
{
    load(alloc, format_of(file), &file.image, file.pages)
}

fn format_of(file: &ExecutionFile) -> Format
    ensures { result ≡ (if file.now.flat then Format.Flat else Format.Elf) }
{
    if file.flat { Format::Flat } else { Format::Elf }
}

/// The same, over the file's image.
fn check_over(
    alloc: Global,
    file: &ExecutionFile,
    image: Image,
    asked: Option<HartStep>,
) -> Result<Checked, RunError>
    requires { length file.now.harts.items ≤ MOST_HARTS }
    ensures { IfOk result (λ c.
        IsFound (opening_guest image file.now.input.items (length file.now.harts.items))
        (as_recorded file.now) asked c.finding c) }
{
    let mut follower = Follower::open(alloc, &image, &file.input, &file.harts, asked)?;
    let followed = follower.follow(&file.calls);
    let way = follower.into_way();
    let opening = Trace::new(alloc, image.into_pieces());
    match followed {
        Ok(()) => {
            way.execution.is_small();
            judge(alloc, file, way, opening)
        }
        Err(halt) => halted(alloc, way, opening, halt),
    }
}

/// What is found of a file that couldn't be followed to its end.
fn halted(alloc: Global, way: Way, opening: Trace, halt: Halt) -> Result<Checked, RunError>
    ensures { IfOk result (λ k. (x : FaultFound) × (halt ≡ halts.Fault x) ×
        (k.finding ≡ findings.Fault x)) }
{
    match halt {
        Halt::Fault(fault) => Ok(refused(alloc, way, opening, fault)),
        Halt::OutOfMemory => {
            drop(way);
            drop(opening);
            Err(RunError::OutOfMemory)
        }
    }
}

/// What is found of a file in which there is this fault.
fn refused(alloc: Global, way: Way, opening: Trace, fault: Fault) -> Checked
    ensures { result.finding ≡ findings.Fault fault }
{
    let Way {
        execution,
        script,
        ..
    } = way;
    Checked {
        finding: Finding::Fault(fault),
        execution,
        script,
        order: Order(Vec::new(alloc)),
        opening,
        sights: Sights {
            pcs: Vec::new(alloc),
            before: None,
        },
    }
}

/// What is found of an execution whose harts do what the file says.
fn judge(alloc: Global, file: &ExecutionFile, way: Way, opening: Trace) -> Result<Checked, RunError>
    requires formed { All HasForm way.execution.standing.events }
    requires along { length way.execution.standing.instructions
        ≡ length way.execution.standing.events }
    ensures hands_on { IfOk result (HandsOn way opening.opening) }
    ensures verdict { IfOk result (λ k. (v : Verdict) → k.finding ≡ findings.Judged v →
        Judges v (opening_at opening.opening) way.execution.standing k.order.0.items) }
    ensures names { IfOk result (λ k. (v : Verdict) → k.finding ≡ findings.Judged v →
        AreNames (as_recorded file.now).order way.execution.standing.events k.order.0.items) }
    ensures none { IfOk result (λ k. (fault : FaultFound) → k.finding ≡ findings.Fault fault →
        IsUnnamed (as_recorded file.now).order way.execution.standing.events fault) }
{
    let (finding, order) = judge_named(alloc, file, &way.execution, &opening)?;
    let Way {
        execution,
        script,
        notes,
        ..
    } = way;
    let Notes { sights, .. } = notes;
    Ok(Checked {
        finding,
        execution,
        script,
        order,
        opening,
        sights,
    })
}

/// What is found of an execution, and the order that the file's turns name.
fn judge_named(
    alloc: Global,
    file: &ExecutionFile,
    execution: &Execution,
    opening: &Trace,
) -> Result<(Finding, Order), OutOfMemory>
    requires formed { All HasForm execution.now.standing.events }
    requires along { length execution.now.standing.instructions
        ≡ length execution.now.standing.events }
    ensures verdict { IfOk result (λ f. (v : Verdict) → f.0 ≡ findings.Judged v →
        Judges v (opening_at opening.now.opening) execution.now.standing f.1.0.items) }
    ensures names { IfOk result (λ f. (v : Verdict) → f.0 ≡ findings.Judged v →
        AreNames (as_recorded file.now).order execution.now.standing.events f.1.0.items) }
    ensures none { IfOk result (λ f. (fault : FaultFound) → f.0 ≡ findings.Fault fault →
        IsUnnamed (as_recorded file.now).order execution.now.standing.events fault) }
{
    match order_named_by(alloc, file, execution)? {
        Said::Order(order) => {
            let verdict = execution_checker::judge(alloc, execution, opening, &order)?;
            Ok((Finding::Judged(verdict), order))
        }
        Said::Fault(fault) => Ok((Finding::Fault(fault), Order(Vec::new(alloc)))),
    }
}
