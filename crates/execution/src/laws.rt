//! Laws of the definitions, each the contract of a function that does nothing.

ghost use Rattle.execution.specs.Runs.{RunsAreExecutions};

/// Every run in rounds is an execution: from the run's start, with the same harts and the same console, and with the events of the
/// run's trace, between which stands one for each instruction without an access. So the definition of executions isn't too narrow.
pub fn runs_are_executions()
    ensures { RunsAreExecutions }
{}
