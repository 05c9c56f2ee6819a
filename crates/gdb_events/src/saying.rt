ghost use Rattle.std.specs.Prelude.{◌≡◌, IfOk};
ghost use Rattle.hex.specs.Hex.{encode_lower};
ghost use Rattle.gdb_packets.specs.Writing.{packet_text};
ghost use Rattle.gdb_events.specs.Saying.{text_or};

use gdb_replies::{Reply, reply_text};
use pages::OutOfMemory;
use std::alloc::Global;

/// Answers the user with a text, or with another one where it is empty.
pub(crate) fn say_or(alloc: Global, text: &[u8], none: &[u8]) -> Result<Vec<u8>, OutOfMemory>
    ensures { IfOk result (λ said. said.items
        ≡ packet_text (encode_lower (text_or none.now text.now))) }
{
    match text {
        [] => reply_text(alloc, &Reply::Words(none)),
        [_, ..] => reply_text(alloc, &Reply::Words(text)),
    }
}
