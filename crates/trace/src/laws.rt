//! Laws of the definitions, each the contract of a function that does nothing.

ghost use Rattle.trace.specs.Runs.{RunsLeaveTraces};

/// `Trace::of` takes the trace of every run over instructions that count themselves and whose accesses have their forms, where
/// the run is too short for the counts to wrap and memory has at most 2^32 bytes.
pub fn runs_leave_traces<H, C>()
    ensures { RunsLeaveTraces H C }
{}
