ghost use Rattle.hunter.specs.Finding.{RoundRunsNeverEnd};

/// A run that goes round never ends: each hart that runs when its rounds are over runs for ever under its plan.
pub fn round_runs_never_end()
    ensures { RoundRunsNeverEnd }
{}
