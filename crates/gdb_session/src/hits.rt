//! Whether stops at watchpoints tell the access.

ghost use Rattle.std.specs.Prelude.{◌≡◌, IfOk, OnErr};
ghost use Rattle.hex.specs.Hex.{encode_lower};
ghost use Rattle.gdb_replies.specs.CommandTexts.{hits_text};
ghost use Rattle.gdb_runs.specs.Sessions.{IsReady, state_of};
ghost use Rattle.gdb_session.specs.Answers.{Says, with_hits};

use gdb_replies::{Reply, reply_text};
use gdb_runs::{Debugged, Session};
use pages::OutOfMemory;
use std::alloc::Global;

/// What is said where they do from now on.
const ON: &[u8] = b"each stop at a watchpoint tells the access\n";

/// What is said where they don't.
const OFF: &[u8] = b"stops at watchpoints tell no access\n";

/// Has stops at watchpoints tell the access from now on, or no longer, and says so.
pub(crate) fn set_hits(
    alloc: Global,
    run: &Debugged,
    session: &mut Session,
    on: bool,
) -> Result<Vec<u8>, OutOfMemory>
    requires ready { IsReady run.now session.old.standing }
    ensures ready { IsReady run.now session.new.standing }
    ensures says { IfOk result (λ text. Says (encode_lower (hits_text on))
        (with_hits (state_of session.old) on) text.items (state_of session.new)) }
    ensures refused { OnErr result (state_of session.new ≡ state_of session.old) }
{
    let text = reply_text(alloc, &Reply::Words(hits_text(on)))?;
    session.standing.hits = on;
    Ok(text)
}

/// What is said.
fn hits_text(on: bool) -> &'static [u8]
    ensures { result.now ≡ hits_text on }
{
    if on { ON } else { OFF }
}
