ghost use Rattle.std.specs.Prelude.{◌≡◌, ◌⊎◌, ⊤, Err, IfErr, IfOk, None, Some};
ghost use Rattle.execution_file.specs.Views.{as_recorded};
ghost use Rattle.host_io.specs.declared.load_error.LoadError.{LoadError as ImageCause};
ghost use Rattle.host_io.specs.declared.error.RunError.TheVariants as refusals;
ghost use Rattle.hunter.specs.Hunts.{IsImageCause, shrink_fault};
ghost use Rattle.hunter.specs.declared.error.HuntError.{HuntError as Refusal};
ghost use Rattle.hunter.specs.declared.error.HuntError.TheVariants as hunting;
ghost use Rattle.weak_commands.specs.Relations.{MakeRelation};
ghost use Rattle.weak_hunter.specs.WeakExecutions.{IsAllowedExecution, IsUnmade};
ghost use Rattle.weak_hunter.specs.declared.error.WeakHuntError.TheVariants.{Hunt};

use execution_scripts::ExecutionFile;
use hunter::HuntSettings;
use std::alloc::Global;
use weak_hunter::{WeakHuntError, weak_execution};

/// Who makes executions by their numbers. No definition says which execution a number stands for: so that is a relation, which a command
/// can only get by a call with this number, and with so many steps.
pub trait WeakExecutions {
    /// The file says the execution of a number, of so many steps at most, that is made by these settings of an image and an input.
    ghost makes: { MakeRelation };

    /// Makes the execution of a number, of so many steps at most.
    ///
    /// # Errors
    ///
    /// As `weak_execution` of weak_hunter.
    fn execute_weakly(
        &self,
        alloc: Global,
        image: &[u8],
        input: &[u8],
        settings: &HuntSettings,
        steps: u32,
        number: u32,
    ) -> Result<ExecutionFile, WeakHuntError>
        ensures makes { IfOk result (λ f.
            makes settings.now image.now input.now steps number (as_recorded f)) }
        ensures allowed { IfOk result (λ f.
            IsAllowedExecution settings.now image.now input.now (as_recorded f)) }
        ensures settings { (e : Refusal) → shrink_fault settings.now ≡ Some e →
            result ≡ Err (Hunt e) }
        ensures image { (cause : ImageCause) → shrink_fault settings.now ≡ None →
            IsImageCause settings.now image.now cause →
            (result ≡ Err (Hunt (hunting.Run (refusals.Image cause)))) ⊎
            (result ≡ Err (Hunt (hunting.Run refusals.OutOfMemory))) }
        ensures errors { shrink_fault settings.now ≡ None →
            IfErr result (IsUnmade settings.now image.now number) };
}

/// The executions of weak_hunter.
#[derive(Clone, Copy)]
pub struct WeakExecuter;

impl WeakExecutions for WeakExecuter {
    ghost makes = { λ _ _ _ _ _ _. ⊤ };

    fn execute_weakly(
        &self,
        alloc: Global,
        image: &[u8],
        input: &[u8],
        settings: &HuntSettings,
        steps: u32,
        number: u32,
    ) -> Result<ExecutionFile, WeakHuntError> {
        weak_execution(alloc, image, input, settings, steps, number)
    }
}
