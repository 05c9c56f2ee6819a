ghost use Rattle.std.specs.Prelude.{◌≡◌, ℕ, List, IfOk, IfSome, OnOk};
ghost use Rattle.gdb_resumes.specs.Resumes.{IsUnderWay};
ghost use Rattle.gdb_runs.specs.Sessions.{IsReady, OfRun, state_of};
ghost use Rattle.gdb_session.specs.Serving.{HasEnded, Served, ServesOn, Talking, begun, talking};

use crate::talk::Talk;
use gdb_packets::{Reader, acknowledge};
use gdb_runs::Debugged;
use gdb_talk::{refuse_lost, say};
use host_io::{RunError, Sink, Source};
use std::alloc::Global;
use std::sync::Wait;
use std::thread::Threads;

/// Serves a debugger: reads what it says from a source, and answers it by a sink, until it leaves or the source ends. It may wait.
///
/// # Errors
///
/// `SourceFailed` and `SinkFailed`.
pub fn serve<R: Threads + Wait + Sync, S: Source, K: Sink>(
    rt: &R,
    alloc: Global,
    run: &mut Debugged,
    src: &mut S,
    out: &mut K,
) -> Result<(), RunError>
    requires ready { IsReady run.old begun.state.standing }
    ensures stays { run.new ≡ run.old }
    ensures serves { OfRun run.old (λ r. OnOk result ((t : Talking) × (rest : List ℕ) ×
        Served r (S.gave src.old) (S.gave src.new) (K.took out.old) (K.took out.new) rest t ×
        HasEnded t rest)) }
{
    let mut talk = Talk::new(alloc);
    let mut reader = Reader::new();
    for _i in 0..u64::MAX {
        if !hear_next(rt, alloc, run, &mut talk, &mut reader, src, out)? {
            return Ok(());
        }
    }
    // More than a source gives in any time.
    Err(RunError::SourceFailed)
}

/// Hears what the debugger says next, and answers it. False: it has left, or the source has ended.
fn hear_next<R: Threads + Wait + Sync, S: Source, K: Sink>(
    rt: &R,
    alloc: Global,
    run: &mut Debugged,
    talk: &mut Talk,
    reader: &mut Reader,
    src: &mut S,
    out: &mut K,
) -> Result<bool, RunError>
    requires ready { IsReady run.old talk.old.session.standing }
    requires search { IfSome talk.old.searching (λ x.
        IsUnderWay run.old (state_of talk.old.session) x) }
    ensures stays { run.new ≡ run.old }
    ensures ready { OnOk result (IsReady run.old talk.new.session.standing) }
    ensures search { OnOk result (IfSome talk.new.searching (λ x.
        IsUnderWay run.old (state_of talk.new.session) x)) }
    ensures serves { OfRun run.old (λ r. (g k : List ℕ) →
        Served r g (S.gave src.old) k (K.took out.old) reader.old (talking talk.old) →
        IfOk result (ServesOn r g (S.gave src.new) k (K.took out.new) reader.new
        (talking talk.new))) }
{
    let heard = match reader.next(alloc, src) {
        Ok(heard) => heard,
        Err(RunError::OutOfMemory) => {
            refuse_lost(out)?;
            return Ok(true);
        }
        Err(error) => return Err(error),
    };
    let Some(item) = heard else {
        return Ok(false);
    };
    acknowledge(&item, out)?;
    let response = talk.hear(rt, alloc, run, &item);
    say(&response, out)?;
    if talk.has_ended(&item) {
        return Ok(false);
    }
    Ok(true)
}
