ghost use Rattle.std.specs.Prelude.{◌≡◌, ◌<◌, ◌++◌, IfOk, IfSome, MatchOption, length, None};
ghost use Rattle.std.specs.Option.{option_map};
ghost use Rattle.gdb_packets.specs.Payload.{is_count, kind_of, RepeatsLast, payload_of, read_on};

use pages::OutOfMemory;
use std::alloc::Global;

/// How many bytes the data of a packet has at most, and its payload.
pub(crate) const MOST: usize = 65_536;

/// How a byte behind `}` is changed.
pub(crate) const FLIP: u8 = 0x20;

/// What a byte is in the data of a packet.
#[derive(Clone, Copy)]
pub(crate) enum Kind {
    /// It stands for itself.
    Plain,
    /// `}`: the next byte is changed.
    Escape,
    /// `*`: the byte before is repeated.
    Repeat,
    /// `#` or `$`: it stands in no data.
    Frame,
}

/// What a byte is.
pub(crate) fn kind_of(byte: u8) -> Kind
    ensures { result ≡ kind_of byte }
{
    match byte {
        b'}' => Kind::Escape,
        b'*' => Kind::Repeat,
        b'#' | b'$' => Kind::Frame,
        _ => Kind::Plain,
    }
}

/// Whether a byte behind `*` says how often.
fn is_count(byte: u8) -> bool
    ensures { result ≡ is_count byte }
{
    byte >= b' ' && byte <= b'~' && !(byte == b'#' || byte == b'$')
}

/// Repeats the last byte, as often as a byte behind `*` says. False: there is no last byte, or the byte says nothing.
fn repeat_last(payload: &mut Vec<u8>, count: u8) -> Result<bool, OutOfMemory>
    ensures { IfOk result (λ done. RepeatsLast payload.old.items count done payload.new.items) }
{
    let Some(last) = payload.last().copied() else {
        return Ok(false);
    };
    if !is_count(count) {
        return Ok(false);
    }
    let times = usize::from(count - 29);
    payload.resize(payload.len() + times, last)?;
    Ok(true)
}

/// Reads the byte, the changed byte or the repeats at the front of data, and gives the data behind them. None: the data
/// stands for no payload.
fn take_unit<'a>(payload: &mut Vec<u8>, bytes: &'a [u8]) -> Result<Option<&'a [u8]>, OutOfMemory>
    requires { 0 < length bytes.now }
    ensures goes_on { IfOk result (λ rest.
        MatchOption rest (read_on payload.old.items bytes.now ≡ None)
        (λ more. read_on payload.new.items more.now ≡ read_on payload.old.items bytes.now)) }
    ensures shorter { IfOk result (λ rest.
        IfSome rest (λ more. length more.now < length bytes.now)) }
{
    let Some((first, others)) = bytes.split_first() else {
        return Ok(None);
    };
    match kind_of(*first) {
        Kind::Plain => {
            payload.push(*first)?;
            Ok(Some(others))
        }
        Kind::Escape => match others.split_first() {
            Some((byte, rest)) => {
                payload.push(*byte ^ FLIP)?;
                Ok(Some(rest))
            }
            None => Ok(None),
        },
        Kind::Repeat => match others.split_first() {
            Some((count, rest)) => {
                if repeat_last(payload, *count)? {
                    Ok(Some(rest))
                } else {
                    Ok(None)
                }
            }
            None => Ok(None),
        },
        Kind::Frame => Ok(None),
    }
}

/// The payload that some data stands for.
pub(crate) fn payload_of(alloc: Global, bytes: &[u8]) -> Result<Option<Vec<u8>>, OutOfMemory>
    ensures { IfOk result (λ found. option_map (λ v. v.items) found ≡ payload_of bytes.now) }
{
    let mut payload = Vec::new(alloc);
    let mut rest = bytes;
    while !rest.is_empty() {
        match take_unit(&mut payload, rest)? {
            Some(more) => rest = more,
            None => return Ok(None),
        }
        if payload.len() > MOST {
            return Ok(None);
        }
    }
    Ok(Some(payload))
}
