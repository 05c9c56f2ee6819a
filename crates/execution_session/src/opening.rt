ghost use Rattle.std.specs.Prelude.{◌≡◌, ◌≢◌, ◌≤◌, ℕ, if◌then◌else◌, length, slice_index, true, IfOk, MatchOption, OnOk};
ghost use Rattle.execution_checker.specs.Allowed.{IsVerdict};
ghost use Rattle.execution_checker.specs.declared.verdict.Verdict.{Verdict};
ghost use Rattle.execution_checker.specs.declared.verdict.Verdict.TheVariants.{Allowed};
ghost use Rattle.execution_file.specs.Views.{as_recorded};
ghost use Rattle.execution_moments.specs.Courses.{IsCourse};
ghost use Rattle.execution_scripts.specs.Findings.{IsAsSaid, guest_in, image_in, start_of};
ghost use Rattle.execution_scripts.specs.declared.checking.Finding.TheVariants.{Judged};
ghost use Rattle.execution_session.specs.Opening.{IsOpened};
ghost use Rattle.trace.specs.Traced.{opening_at};

use elf_loader::Image;
use execution_checker::{Execution, Verdict};
use execution_file::ExecutionFile;
use execution_moments::{Course, Past, check_moments};
use execution_scripts::{
    Checked, Fault, Finding, Misfit, Said, Sights, check_file, open_execution, order_said,
};
use host_io::RunError;
use machine::{Format, load};
use memory_order::Order;
use pages::{MOST_PAGES, OutOfMemory};
use round_schedule::MOST_HARTS;
use std::alloc::Global;

/// What a file is opened as.
#[derive(Drop)]
pub enum Opened {
    /// An execution that RVWMO allows.
    Past(Past),
    /// What was found against it.
    Refused(Checked),
}

/// The execution of a file, before a debugger looks at it.
///
/// The file's checker makes the script; what is opened is an execution that the script leads to, judged anew.
///
/// # Errors
///
/// The refusals of the numbers of harts and pages, then of the image; `OutOfMemory`.
pub fn open(alloc: Global, file: &ExecutionFile) -> Result<Opened, RunError>
    ensures { IfOk result (λ o. IsOpened (as_recorded file.now) o) }
{
    let checked = check_file(alloc, file, None)?;
    if checked.finding != Finding::Judged(Verdict::Allowed) {
        return Ok(Opened::Refused(checked));
    }
    open_allowed(alloc, file, checked)
}

/// The same of a file that RVWMO allows.
fn open_allowed(alloc: Global, file: &ExecutionFile, checked: Checked) -> Result<Opened, RunError>
    requires { (x : ℕ) →
        opening_at checked.opening.opening x
        ≡ slice_index (guest_in (as_recorded file.now)).shared.memory.bytes x }
    ensures { IfOk result (λ o. IsOpened (as_recorded file.now) o) }
{
    let followed = follow(alloc, file, &checked)?;
    let Followed {
        execution,
        finding,
        course,
    } = followed;
    match course {
        Some(course) => Ok(Opened::Past(Past {
            execution,
            course,
            order: checked.order,
            opening: checked.opening,
            harts: file.harts.len() as u8,
            size: file.pages * 4096,
        })),
        None => Ok(Opened::Refused(Checked {
            finding,
            execution,
            script: checked.script,
            order: checked.order,
            opening: checked.opening,
            sights: Sights {
                pcs: Vec::new(alloc),
                before: None,
            },
        })),
    }
}

/// An execution that was followed anew.
#[derive(Drop)]
struct Followed {
    execution: Execution,
    finding: Finding,
    /// Its moments, where it is the one that the file says and RVWMO allows it.
    course: Option<Course>,
}

/// Follows the script of a file that was checked anew, and judges what it leads to.
fn follow(alloc: Global, file: &ExecutionFile, checked: &Checked) -> Result<Followed, RunError>
    ensures verdict { IfOk result (λ f. let g = guest_in (as_recorded file.now) in
        (v : Verdict) → f.finding ≡ Judged v →
        IsVerdict v g.shared.memory (opening_at checked.now.opening.opening)
        checked.now.script.items checked.now.order.0.items (start_of g) f.execution.standing) }
    ensures course { IfOk result (λ f. let g = guest_in (as_recorded file.now) in
        MatchOption f.course (f.finding ≢ Judged Allowed) (λ c. (f.finding ≡ Judged Allowed) ×
        IsCourse g.shared.memory (start_of g) f.execution.standing checked.now.order.0.items c)) }
    ensures as_said { IfOk result (λ f. (v : Verdict) → f.finding ≡ Judged v →
        IsAsSaid (as_recorded file.now).harts
        (as_recorded file.now).order f.execution.standing checked.now.order.0.items) }
    ensures harts { OnOk result (length file.now.harts.items ≤ MOST_HARTS) }
    ensures pages { OnOk result (file.now.pages ≤ MOST_PAGES) }
{
    let mut execution = start(alloc, file)?;
    let (script, opening) = (&checked.script, &checked.opening);
    let (verdict, course) = check_moments(alloc, &mut execution, script, opening, &checked.order)?;
    if is_said(alloc, file, &execution, &checked.order)? {
        return Ok(Followed {
            execution,
            finding: Finding::Judged(verdict),
            course,
        });
    }
    Ok(Followed {
        execution,
        finding: Finding::Fault(Fault {
            hart: 0,
            step: 0,
            misfit: Misfit::Otherwise,
        }),
        course: None,
    })
}

/// Whether an execution is the one that a file says, and an order the one that its turns name.
fn is_said(
    alloc: Global,
    file: &ExecutionFile,
    execution: &Execution,
    order: &Order,
) -> Result<bool, OutOfMemory>
    ensures { IfOk result (λ yes. yes ≡ true →
        IsAsSaid (as_recorded file.now).harts (as_recorded file.now).order
        execution.now.standing order.now.0.items) }
{
    match order_said(alloc, file, execution)? {
        Said::Order(said) => Ok(said.0.as_slice() == order.0.as_slice()),
        Said::Fault(_) => Ok(false),
    }
}

/// The execution of a file in which nothing is done yet.
fn start(alloc: Global, file: &ExecutionFile) -> Result<Execution, RunError>
    ensures memory { IfOk result (λ e. e.memory ≡ (guest_in (as_recorded file.now)).shared.memory) }
    ensures standing { IfOk result (λ e. e.standing ≡ start_of (guest_in (as_recorded file.now))) }
    ensures harts { OnOk result (length file.now.harts.items ≤ MOST_HARTS) }
    ensures pages { OnOk result (file.now.pages ≤ MOST_PAGES) }
{
    let harts = file.harts.len();
    if harts < 1 || harts > MOST_HARTS as usize {
        return Err(RunError::HartsOutOfRange);
    }
    if file.pages < 1 || file.pages > MOST_PAGES {
        return Err(RunError::PagesOutOfRange);
    }
    let image = load_image(alloc, file)?;
    Ok(open_execution(alloc, &image, &file.input, harts as u32)?)
}

/// The image of a file.
fn load_image(alloc: Global, file: &ExecutionFile) -> Result<Image, RunError>
    requires some_pages { 1 ≤ file.now.pages }
    requires few_pages { file.now.pages ≤ MOST_PAGES }
    ensures { IfOk result (λ i. i ≡ image_in (as_recorded file.now)) }
{
    load(alloc, format_of(file), &file.image, file.pages)
}

fn format_of(file: &ExecutionFile) -> Format
    ensures { result ≡ (if file.now.flat then Format.Flat else Format.Elf) }
{
    if file.flat { Format::Flat } else { Format::Elf }
}
