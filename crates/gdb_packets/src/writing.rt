ghost use Rattle.std.specs.Prelude.{◌≡◌, ◌++◌, ◌%◌, Err, IfOk, OnOk, sum};
ghost use Rattle.host_io.specs.Taken.{WritesText};
ghost use Rattle.host_io.specs.declared.error.RunError.TheVariants as refusals;
ghost use Rattle.gdb_packets.specs.Payload.{kind_of};
ghost use Rattle.gdb_packets.specs.Views.{told_in};
ghost use Rattle.gdb_packets.specs.Writing.{answer_to, packet_text, sent, sent_as};

use crate::item::Item;
use crate::payload::{FLIP, Kind, kind_of};
use hex::encode;
use host_io::{RunError, Sink, put_all};
use pages::OutOfMemory;
use std::alloc::Global;

/// Adds a byte as it is sent.
fn put_byte(text: &mut Vec<u8>, byte: u8) -> Result<(), OutOfMemory>
    ensures { OnOk result (text.new.items ≡ text.old.items ++ sent_as (kind_of byte) byte) }
{
    match kind_of(byte) {
        Kind::Plain => text.push(byte)?,
        Kind::Escape | Kind::Repeat | Kind::Frame => {
            text.push(b'}')?;
            text.push(byte ^ FLIP)?;
        }
    }
    Ok(())
}

/// The bytes of a payload as they are sent.
fn sent(alloc: Global, payload: &[u8]) -> Result<Vec<u8>, OutOfMemory>
    ensures { IfOk result (λ text. text.items ≡ sent payload.now) }
{
    let mut text = Vec::new(alloc);
    for byte in payload {
        put_byte(&mut text, *byte)?;
    }
    Ok(text)
}

/// The sum of some bytes modulo 256.
fn sum_of(bytes: &[u8]) -> u8
    ensures { result ≡ sum bytes.now % 256 }
{
    let mut sum: u8 = 0;
    for byte in bytes {
        sum = sum.wrapping_add(*byte);
    }
    sum
}

/// The text of a packet with this payload.
///
/// # Errors
///
/// `OutOfMemory` alone.
pub fn packet_text(alloc: Global, payload: &[u8]) -> Result<Vec<u8>, OutOfMemory>
    ensures { IfOk result (λ text. text.items ≡ packet_text payload.now) }
{
    let bytes = sent(alloc, payload)?;
    let digits = encode(alloc, [sum_of(bytes.as_slice())].as_slice())?;
    let mut text = Vec::new(alloc);
    text.push(b'$')?;
    text.extend_from_slice(bytes.as_slice())?;
    text.push(b'#')?;
    text.extend_from_slice(digits.as_bytes())?;
    Ok(text)
}

/// Writes a packet with this payload.
///
/// # Errors
///
/// `OutOfMemory`: nothing is written then. `SinkFailed`: a beginning of the packet is.
pub fn write_packet<K: Sink>(alloc: Global, payload: &[u8], out: &mut K) -> Result<(), RunError>
    ensures writes { WritesText (packet_text payload.now) (K.took out.old) (K.failures out.old)
        result
        (K.took out.new) (K.failures out.new) }
    ensures memory { result ≡ Err refusals.OutOfMemory → K.took out.new ≡ K.took out.old }
{
    match packet_text(alloc, payload) {
        Ok(text) => put_all(out, text.as_slice()),
        Err(_) => Err(RunError::OutOfMemory),
    }
}

/// Says that a packet came, or that it is to be sent again. To all else nothing is said.
///
/// # Errors
///
/// `SinkFailed`: nothing is said then.
pub fn acknowledge<K: Sink>(item: &Item, out: &mut K) -> Result<(), RunError>
    ensures writes { WritesText (answer_to (told_in item.now)) (K.took out.old) (K.failures out.old)
        result
        (K.took out.new) (K.failures out.new) }
{
    match item {
        Item::Packet(_) => put_all(out, b"+"),
        Item::Spoilt => put_all(out, b"-"),
        Item::Accepted | Item::Again | Item::Interrupt => Ok(()),
    }
}
