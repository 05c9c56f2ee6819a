//! What is found of an execution.
ghost use Rattle.std.specs.Prelude.{◌≡◌, ◌⊎◌, ◌<◌, ◌++◌, ℕ, Err, IfErr, IfOk, List, OnErr, codes, false, true};
ghost use Rattle.execution_commands.specs.Verdicts.{IsVerdictText, is_allowed, verdict_status};
ghost use Rattle.host_io.specs.Taken.{BeganText};
ghost use Rattle.host_io.specs.declared.error.RunError.TheVariants as refusals;
ghost use Rattle.report.specs.Report.{harts_text};

use execution_scripts::{Checked, Finding, Verdict};
use host_io::{RunError, Sink, put_all};
use pages::OutOfMemory;
use program_files::ExitStatus;
use report_lines::{Line, hart_lines};
use std::alloc::{AllocError, Global};

/// Whether RVWMO allows an execution that was checked.
pub fn is_allowed(checked: &Checked) -> bool
    ensures { result ≡ is_allowed checked.now.finding }
{
    matches!(checked.finding, Finding::Judged(Verdict::Allowed))
}

/// Puts what was found of an execution: that RVWMO allows it, and its harts at its end, or why it is refused. Answers the exit status that
/// goes with it.
///
/// # Errors
///
/// `OutOfMemory`: nothing is put then. `SinkFailed`: a beginning is.
pub fn put_verdict<S: Sink>(
    alloc: Global,
    checked: &Checked,
    out: &mut S,
) -> Result<ExitStatus, RunError>
    ensures puts { IfOk result (λ status. (text : List ℕ) × IsVerdictText checked.now text ×
        (S.took out.new ≡ S.took out.old ++ text) × (status ≡ verdict_status checked.now.finding)) }
    ensures begun { OnErr result ((S.took out.new ≡ S.took out.old) ⊎
        ((text : List ℕ) × IsVerdictText checked.now text ×
        BeganText (S.took out.old) (S.took out.new) text)) }
    ensures memory { result ≡ Err refusals.OutOfMemory → out.new ≡ out.old }
    ensures sink { result ≡ Err refusals.SinkFailed → S.failures out.old < S.failures out.new }
    ensures errors { IfErr result (λ e. (e ≡ refusals.OutOfMemory) ⊎ (e ≡ refusals.SinkFailed)) }
{
    let text = verdict_text(alloc, checked)?;
    put_all(out, text.as_bytes())?;
    Ok(verdict_status(checked))
}

/// The exit status of what was found.
pub fn verdict_status(checked: &Checked) -> ExitStatus
    ensures { result ≡ verdict_status checked.now.finding }
{
    if is_allowed(checked) {
        ExitStatus::Done
    } else {
        ExitStatus::Differs
    }
}

/// The lines of what was found.
///
/// # Errors
///
/// `OutOfMemory` alone.
pub fn verdict_text(alloc: Global, checked: &Checked) -> Result<Line, OutOfMemory>
    ensures { IfOk result (IsVerdictText checked.now) }
{
    if is_allowed(checked) {
        allowed_text(alloc, checked)
    } else {
        refused_text(alloc, checked)
    }
}

/// The lines of an execution that is allowed.
fn allowed_text(alloc: Global, checked: &Checked) -> Result<Line, OutOfMemory>
    ensures { IfOk result (λ text. text ≡
        codes "allowed\n" ++ harts_text 0 checked.now.execution.standing.harts) }
{
    let harts = checked.execution.harts();
    let mut text = Line::new(alloc);
    text.text("allowed\n")?;
    for (number, hart) in harts.iter().enumerate() {
        hart_lines(&mut text, number as u64, hart)?;
    }
    Ok(text)
}

/// The lines of one that is refused.
fn refused_text(alloc: Global, checked: &Checked) -> Result<Line, OutOfMemory>
    ensures { IfOk result (λ text. (reason : List ℕ) ×
        (text ≡ codes "refused\n" ++ reason ++ codes "\n")) }
{
    let reason = reason_of(alloc, checked)?;
    let mut text = Line::new(alloc);
    text.text("refused\n")?;
    text.text(reason.as_str())?;
    text.text("\n")?;
    Ok(text)
}

/// Why an execution is refused.
fn reason_of(alloc: Global, checked: &Checked) -> Result<String, AllocError> {
    match checked.finding {
        Finding::Fault(fault) => format!(in alloc; "{fault}"),
        Finding::Judged(verdict) => {
            let why = verdict.reason(&checked.script, checked.execution.events());
            format!(in alloc; "{why}")
        }
    }
}
