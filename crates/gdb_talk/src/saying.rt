//! What is said to a debugger.

ghost use Rattle.std.specs.Prelude.{◌≡◌, ◌∷◌, ◌++◌, ℕ, List, Err, OnErr, OnOk, None};
ghost use Rattle.host_io.specs.declared.error.RunError.TheVariants as refusals;
ghost use Rattle.gdb_packets.specs.Stream.{next_of};
ghost use Rattle.gdb_packets.specs.Views.{told_in};
ghost use Rattle.gdb_talk.specs.Saying.{asks_text, refused_text, response_text};
ghost use Rattle.gdb_talk.specs.Serving.{Refused, refusal_of};

use gdb_packets::{Item, Reader, acknowledge};
use gdb_replies::{Reply, write_reply};
use host_io::{RunError, Sink, Source, put_all};
use std::alloc::Global;

/// What says that a request found no memory: the packet of `E.error 20`.
const REFUSED: &[u8] = b"$E.error 20#1f";

/// What asks for an acknowledgement: a packet with nothing for the debugger's terminal.
const ASKS: &[u8] = b"$O#4f";

/// What is said to a debugger behind the acknowledgement of what it said.
#[derive(Drop)]
pub enum Response {
    /// Nothing.
    Nothing,
    /// These packets.
    Packets(Vec<u8>),
    /// The wish for an acknowledgement: the answer is still sought.
    Asks,
    /// That there was no memory for an answer.
    Refused,
}

/// Says it.
///
/// # Errors
///
/// `SinkFailed` alone.
pub fn say<K: Sink>(response: &Response, out: &mut K) -> Result<(), RunError>
    ensures writes { OnOk result (K.took out.new ≡ K.took out.old ++ response_text response.now) }
    ensures errors { OnErr result (result ≡ Err refusals.SinkFailed) }
{
    match response {
        Response::Nothing => Ok(()),
        Response::Packets(text) => put_all(out, text.as_slice()),
        Response::Asks => ask(out),
        Response::Refused => refuse(out),
    }
}

/// Asks for an acknowledgement.
fn ask<K: Sink>(out: &mut K) -> Result<(), RunError>
    ensures writes { OnOk result (K.took out.new ≡ K.took out.old ++ asks_text) }
    ensures errors { OnErr result (result ≡ Err refusals.SinkFailed) }
{
    put_all(out, ASKS)
}

/// Says that a request found no memory.
fn refuse<K: Sink>(out: &mut K) -> Result<(), RunError>
    ensures writes { OnOk result (K.took out.new ≡ K.took out.old ++ refused_text) }
    ensures errors { OnErr result (result ≡ Err refusals.SinkFailed) }
{
    put_all(out, REFUSED)
}

/// Acknowledges something that found no memory, and says so.
///
/// # Errors
///
/// `SinkFailed` alone.
pub fn refuse_lost<K: Sink>(out: &mut K) -> Result<(), RunError>
    ensures writes { OnOk result (K.took out.new ≡ K.took out.old ++ 43 ∷ refused_text) }
    ensures errors { OnErr result (result ≡ Err refusals.SinkFailed) }
{
    put_all(out, b"+")?;
    refuse(out)
}

/// Answers each request by the number of a refusal, until the source ends: a debugger shows what it is told, and not why a program ended.
///
/// # Errors
///
/// `OutOfMemory`, `SourceFailed` and `SinkFailed`.
pub fn refuse_each<S: Source, K: Sink>(
    alloc: Global,
    number: u32,
    src: &mut S,
    out: &mut K,
) -> Result<(), RunError>
    ensures refuses { OnOk result ((rest : List ℕ) × (next_of rest ≡ None) ×
        Refused number (S.gave src.old) (S.gave src.new) (K.took out.old) (K.took out.new) rest) }
{
    let mut reader = Reader::new();
    for _i in 0..u64::MAX {
        match reader.next(alloc, src)? {
            Some(item) => refuse_one(alloc, number, &item, out)?,
            None => return Ok(()),
        }
    }
    // More than a source gives in any time.
    Err(RunError::SourceFailed)
}

/// Answers what a debugger says, by the number of a refusal where it is a request.
fn refuse_one<K: Sink>(alloc: Global, number: u32, item: &Item, out: &mut K) -> Result<(), RunError>
    ensures { OnOk result (K.took out.new ≡
        K.took out.old ++ refusal_of number (told_in item.now)) }
{
    acknowledge(item, out)?;
    match item {
        Item::Packet(_) => write_reply(alloc, &Reply::Refused(number), out),
        Item::Accepted | Item::Again | Item::Interrupt | Item::Spoilt => Ok(()),
    }
}
