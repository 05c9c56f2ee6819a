ghost use Rattle.std.specs.Prelude.{◌≡◌, Err, IfOk};
ghost use Rattle.host_io.specs.Taken.{WritesText};
ghost use Rattle.host_io.specs.declared.error.RunError.TheVariants as refusals;
ghost use Rattle.gdb_packets.specs.Writing.{packet_text};
ghost use Rattle.gdb_replies.specs.Replies.{payload_of};

use crate::payload::payload_of;
use crate::reply::Reply;
use gdb_packets::{packet_text, write_packet};
use host_io::{RunError, Sink};
use pages::OutOfMemory;
use std::alloc::Global;

/// A reply, as the text of a packet.
///
/// # Errors
///
/// `OutOfMemory` alone.
pub fn reply_text(alloc: Global, reply: &Reply<'_>) -> Result<Vec<u8>, OutOfMemory>
    ensures { IfOk result (λ text. text.items ≡ packet_text (payload_of reply.now)) }
{
    let payload = payload_of(alloc, reply)?;
    packet_text(alloc, payload.as_slice())
}

/// Writes a reply, as a packet.
///
/// # Errors
///
/// `OutOfMemory`: nothing is written then. `SinkFailed`: a beginning of the packet is.
pub fn write_reply<K: Sink>(alloc: Global, reply: &Reply<'_>, out: &mut K) -> Result<(), RunError>
    ensures writes { WritesText (packet_text (payload_of reply.now)) (K.took out.old)
        (K.failures out.old) result (K.took out.new) (K.failures out.new) }
    ensures memory { result ≡ Err refusals.OutOfMemory → K.took out.new ≡ K.took out.old }
{
    match payload_of(alloc, reply) {
        Ok(payload) => write_packet(alloc, payload.as_slice(), out),
        Err(_) => Err(RunError::OutOfMemory),
    }
}
