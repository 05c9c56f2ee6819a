ghost use Rattle.std.specs.Prelude.{◌≡◌, ◌+◌, ◌++◌, ◌∷◌, [], IfOk, IfSome, OnOk, if◌then◌else◌, length};
ghost use Rattle.endings_finder.specs.AllEndings.{AreConfirmed, CanEnd, guest_from};

use crate::guest::Guest;
use crate::judging::judge_of_guest;
use all_search::{Ending, RunEnd};
use ending_judge::Proposed;
use endings_table::{FoundEnding, HartEnd};
use execution_makers::execution_of_script;
use execution_scripts::ExecutionFile;
use pages::OutOfMemory;
use std::alloc::Global;

/// Endings, each of which the judge allows.
#[derive(Drop)]
pub(crate) struct Confirmed {
    /// The endings.
    pub endings: Vec<FoundEnding>,
    /// The execution of each, where they are kept.
    pub executions: Vec<ExecutionFile>,
    /// How many the judge refused: each is a fault of dethart.
    pub refused: u64,
}

impl Confirmed {
    /// No endings.
    pub(crate) fn none(alloc: Global) -> Confirmed
        ensures endings { result.endings.items ≡ [] }
        ensures executions { result.executions.items ≡ [] }
    {
        Confirmed {
            endings: Vec::new(alloc),
            executions: Vec::new(alloc),
            refused: 0,
        }
    }

    /// Adds an ending that was found, if the judge allows it.
    ///
    /// # Errors
    ///
    /// `OutOfMemory` alone.
    pub(crate) fn add(&mut self, guest: &Guest<'_>, found: &Ending) -> Result<(), OutOfMemory>
        requires { AreConfirmed (guest_from guest.now.program.now guest.now.scripted)
            guest.now.ranges.now guest.now.keeps self.old.endings.items
            self.old.executions.items }
        ensures { OnOk result (AreConfirmed (guest_from guest.now.program.now guest.now.scripted)
            guest.now.ranges.now guest.now.keeps self.new.endings.items self.new.executions.items) }
    {
        match allowed_ending(guest, found)? {
            Some(ending) => self.put(guest, found, ending)?,
            None => self.refused = self.refused.saturating_add(1),
        }
        Ok(())
    }

    /// Puts an ending that is allowed with the others.
    fn put(
        &mut self,
        guest: &Guest<'_>,
        found: &Ending,
        ending: FoundEnding,
    ) -> Result<(), OutOfMemory>
        ensures endings { OnOk result (self.new.endings.items ≡
            self.old.endings.items ++ ending ∷ []) }
        ensures executions { OnOk result (length self.new.executions.items ≡
            length self.old.executions.items + (if guest.now.keeps then 1 else 0)) }
    {
        if guest.keeps {
            self.executions.push(file_of(guest, found)?)?;
        }
        self.endings.push(ending)?;
        Ok(())
    }
}

/// An ending that was found, as the judge finds it, if RVWMO allows its execution.
fn allowed_ending(guest: &Guest<'_>, found: &Ending) -> Result<Option<FoundEnding>, OutOfMemory>
    ensures { IfOk result (λ o. IfSome o
        (CanEnd (guest_from guest.now.program.now guest.now.scripted) guest.now.ranges.now)) }
{
    let ends = ends_of(guest.alloc, found)?;
    let proposed = Proposed {
        script: &found.execution.script,
        order: &found.execution.order,
        ends: &ends,
    };
    Ok(match judge_of_guest(guest, &proposed)? {
        Some(ending) if is_as_found(&ending, found) => Some(ending),
        _ => None,
    })
}

/// Whether a hart is found to wait for ever.
pub(crate) fn has_waiting(found: &Ending) -> bool {
    found
        .harts
        .iter()
        .any(|hart| matches!(hart.end, RunEnd::Waits(_)))
}

/// How harts are found to end.
fn ends_of(alloc: Global, found: &Ending) -> Result<Vec<HartEnd>, OutOfMemory> {
    let mut ends = Vec::new(alloc);
    for hart in &found.harts {
        ends.push(match hart.end {
            RunEnd::Stopped(stop) => HartEnd::Stopped(stop),
            RunEnd::Waits(pc) => HartEnd::Waits(pc),
        })?;
    }
    Ok(ends)
}

/// Whether outputs and bytes are those that were found.
fn is_as_found(ending: &FoundEnding, found: &Ending) -> bool {
    if ending.outputs.len() != found.harts.len() || ending.seen.len() != found.seen.len() {
        return false;
    }
    for (output, hart) in ending.outputs.iter().zip(found.harts.iter()) {
        if output.as_slice() != hart.output.as_slice() {
            return false;
        }
    }
    for (bytes, others) in ending.seen.iter().zip(found.seen.iter()) {
        if bytes.as_slice() != others.as_slice() {
            return false;
        }
    }
    true
}

/// The execution of an ending as a file.
fn file_of(guest: &Guest<'_>, found: &Ending) -> Result<ExecutionFile, OutOfMemory> {
    let execution = &found.execution;
    match execution_of_script(
        guest.alloc,
        &guest.scripted,
        &execution.script,
        &execution.order,
    ) {
        Ok(file) => Ok(file),
        // The guest was opened before, so nothing but memory is wanting.
        Err(_) => Err(OutOfMemory),
    }
}
