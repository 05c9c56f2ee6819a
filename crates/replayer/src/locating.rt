ghost use Rattle.std.specs.Prelude.{◌≡◌, IfOk, map};
ghost use Rattle.run_events.specs.Pcs.{pc_before};
ghost use Rattle.round_planner.specs.Quotas.{Planned};
ghost use Rattle.replayer.specs.Refusals.{RefusedInOrder};
ghost use Rattle.replayer.specs.Replayed.{IsPlanFor, start_of};

use crate::opened::opened_untraced;
use host_io::RunError;
use recording::Recording;
use round_schedule::Event;
use run_events::pcs_of_run;
use std::alloc::Global;
use std::sync::Wait;
use std::thread::Threads;

/// For each of these events of the recording's run the pc of its instruction: that of its hart before it. `None` where the hart
/// did no such instruction in the event's round. The recording is run anew, on 1 to 16 workers: once, where the events are in the
/// order of the trace. It may wait.
///
/// # Errors
///
/// `WorkersOutOfRange`, then the refusals of the recording's image, then of its plan; `OutOfMemory`.
pub fn pcs_before<R: Threads + Wait + Sync>(
    rt: &R,
    alloc: Global,
    recording: &Recording,
    events: &[Event],
    workers: u32,
) -> Result<Vec<Option<u64>>, RunError>
    ensures pcs { IfOk result (λ v. (plan : Planned) × IsPlanFor recording.now plan × (v.items ≡
        map (pc_before recording.now.rounds (start_of recording.now plan)) events.now)) }
    ensures in_order { RefusedInOrder workers recording.now result }
{
    let mut start = opened_untraced(alloc, recording, workers)?;
    let pcs = pcs_of_run(rt, alloc, &mut start, recording.rounds(), events, workers);
    drop(start);
    pcs
}
