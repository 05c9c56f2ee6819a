ghost use Rattle.std.specs.Prelude.{◌≡◌, ◌∷◌, ◌++◌, ℕ, List, IfOk, OnOk};
ghost use Rattle.execution_moments.specs.Looked.{looked_at};
ghost use Rattle.execution_session.specs.Serving.{HasEnded, Served, ServesOn, Talking, talking};

use crate::talk::Talk;
use execution_moments::Past;
use gdb_packets::{Reader, acknowledge};
use gdb_talk::{refuse_lost, say};
use host_io::{RunError, Sink, Source};
use std::alloc::Global;

/// Serves a debugger: reads what it says from a source, and answers it by a sink, until it leaves or the source ends.
///
/// # Errors
///
/// `SourceFailed` and `SinkFailed`.
pub fn serve<S: Source, K: Sink>(
    alloc: Global,
    past: &Past,
    src: &mut S,
    out: &mut K,
) -> Result<(), RunError>
    ensures { OnOk result ((t : Talking) × (rest : List ℕ) ×
        Served (looked_at past.now) (S.gave src.old) (S.gave src.new) (K.took out.old)
        (K.took out.new) rest t × HasEnded t rest) }
{
    let mut talk = Talk::new(alloc);
    let mut reader = Reader::new();
    for _i in 0..u64::MAX {
        if !hear_next(alloc, past, &mut talk, &mut reader, src, out)? {
            return Ok(());
        }
    }
    // More than a source gives in any time.
    Err(RunError::SourceFailed)
}

/// Hears what the debugger says next, and answers it. False: it has left, or the source has ended.
fn hear_next<S: Source, K: Sink>(
    alloc: Global,
    past: &Past,
    talk: &mut Talk,
    reader: &mut Reader,
    src: &mut S,
    out: &mut K,
) -> Result<bool, RunError>
    ensures { IfOk result (λ more. (g k : List ℕ) →
        Served (looked_at past.now) g (S.gave src.old) k (K.took out.old) reader.old
        (talking talk.old) →
        ServesOn (looked_at past.now) g (S.gave src.new) k (K.took out.new) reader.new
        (talking talk.new) more) }
{
    let heard = match reader.next(alloc, src) {
        Ok(heard) => heard,
        Err(RunError::OutOfMemory) => {
            refuse_lost(out)?;
            return Ok(true);
        }
        Err(error) => return Err(error),
    };
    let Some(item) = heard else {
        return Ok(false);
    };
    acknowledge(&item, out)?;
    let response = talk.hear(alloc, past, &item);
    say(&response, out)?;
    if talk.has_ended(&item) {
        return Ok(false);
    }
    Ok(true)
}
