ghost use Rattle.std.specs.Prelude.{◌≡◌, IfOk};
ghost use Rattle.round_planner.specs.Quotas.{Planned};
ghost use Rattle.run_events.specs.Hits.{of_rounds};
ghost use Rattle.replayer.specs.Refusals.{RefusedInOrder};
ghost use Rattle.replayer.specs.Replayed.{IsPlanFor, hits_of, start_of};

use crate::opened::opened_untraced;
use host_io::RunError;
use machine::{Observer, Unobserved};
use pages::Range;
use recording::Recording;
use round_schedule::Event;
use run_events::{Rounds, Sought, hits_of_run};
use std::alloc::Global;
use std::sync::Wait;
use std::thread::Threads;

/// Runs a recording anew, on 1 to 16 workers, and gives the events of its trace that aren't fences and have a byte in one of
/// the ranges, in the order of the trace; store-conditionals that failed are among them. It may wait.
///
/// A range ends at its start plus its length, without wrap; an empty one has no bytes.
///
/// # Errors
///
/// `WorkersOutOfRange`, then the refusals of the recording's image, then of its plan; `OutOfMemory`.
pub fn watch<R: Threads + Wait + Sync>(
    rt: &R,
    alloc: Global,
    recording: &Recording,
    ranges: &[Range],
    workers: u32,
) -> Result<Vec<Event>, RunError>
    ensures hits { IfOk result (λ v. (plan : Planned) × IsPlanFor recording.now plan ×
        (v.items ≡ hits_of recording.now (start_of recording.now plan) ranges.now)) }
    ensures in_order { RefusedInOrder workers recording.now result }
{
    let mut machine = opened_untraced(alloc, recording, workers)?;
    let sought = Sought {
        ranges,
        within: None,
    };
    let rounds = recording.rounds();
    let hits = hits_of_run(
        rt,
        alloc,
        &mut machine,
        rounds,
        sought,
        workers,
        &mut Unobserved,
    );
    drop(machine);
    hits
}

/// What `watch` gives, of some rounds alone. It runs no further than the last of them. It may wait.
///
/// The observer looks at the machine after each round in which a hart runs.
///
/// # Errors
///
/// As `watch`.
pub fn watch_rounds<O: Observer, R: Threads + Wait + Sync>(
    rt: &R,
    alloc: Global,
    recording: &Recording,
    ranges: &[Range],
    rounds: Rounds,
    workers: u32,
    observer: &mut O,
) -> Result<Vec<Event>, RunError>
    ensures hits { IfOk result (λ v. (plan : Planned) × IsPlanFor recording.now plan ×
        (v.items ≡ of_rounds rounds.first rounds.last
        (hits_of recording.now (start_of recording.now plan) ranges.now))) }
    ensures in_order { RefusedInOrder workers recording.now result }
{
    let mut machine = opened_untraced(alloc, recording, workers)?;
    let sought = Sought {
        ranges,
        within: Some(rounds),
    };
    let count = recording.rounds().min(rounds.last);
    let hits = hits_of_run(rt, alloc, &mut machine, count, sought, workers, observer);
    drop(machine);
    hits
}
