ghost use Rattle.std.specs.Prelude.{◌≡◌, IfErr, MatchResult};
ghost use Rattle.host_io.specs.declared.error.RunError.TheVariants as refusals;

use host_io::RunError;
use pages::OutOfMemory;

/// What fails for memory alone, with that for its failure.
pub fn of_memory<T>(outcome: Result<T, RunError>) -> Result<T, OutOfMemory>
    requires { IfErr outcome (λ e. e ≡ refusals.OutOfMemory) }
    ensures { MatchResult result (λ x. outcome ≡ Ok x) (λ _. outcome ≡ Err refusals.OutOfMemory) }
{
    match outcome {
        Ok(value) => Ok(value),
        Err(RunError::OutOfMemory) => Err(OutOfMemory),
        Err(_) => unreachable!(),
    }
}
