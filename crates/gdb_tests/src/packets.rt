//! Packets read and written. Sums are worked out by hand; the examples of escapes and of runs are those of gdb's manual, appendix E.1.

use gdb_packets::{Item, Reader, acknowledge, write_packet};
use host_io::{History, ReadSource, RunError, Source, SourceFault, WriteSink};
use std::alloc::{AllocError, Global};
use std::test::Fail;

/// A source that gives one byte at a time.
#[derive(Drop)]
struct Slow<'a> {
    rest: &'a [u8],
    given: History,
    ended: History,
}

impl Source for Slow<'_> {
    ghost use Rattle.std.specs.Prelude.{length};

    ghost gave = { λ s. s.given.bytes };

    ghost ends = { λ s. length s.ended.bytes };

    ghost failures = { λ _. 0 };

    fn get(&mut self, buf: &mut [u8]) -> Result<usize, SourceFault> {
        if buf.is_empty() {
            return Ok(0);
        }
        match self.rest.split_first() {
            None => {
                self.ended.note(&[0]);
                Ok(0)
            }
            Some((first, rest)) => {
                buf[0] = *first;
                self.rest = rest;
                self.given.note(&buf[..1]);
                Ok(1)
            }
        }
    }
}

/// Tells a packet: its payload in brackets.
fn tell_packet(text: &mut Vec<u8>, payload: &[u8]) -> Result<(), AllocError> {
    text.push(b'[')?;
    text.extend_from_slice(payload)?;
    text.push(b']')?;
    Ok(())
}

/// Tells an item: `+`, `-`, `!` for an interrupt, `?` for a spoilt packet, or a packet.
fn tell(text: &mut Vec<u8>, item: &Item) -> Result<(), AllocError> {
    let byte = match item {
        Item::Accepted => b'+',
        Item::Again => b'-',
        Item::Interrupt => b'!',
        Item::Spoilt => b'?',
        Item::Packet(payload) => return tell_packet(text, payload),
    };
    text.push(byte)?;
    Ok(())
}

/// Tells the next item of a stream, and answers whether there is one.
fn tell_next<S: Source>(
    alloc: Global,
    reader: &mut Reader,
    src: &mut S,
    text: &mut Vec<u8>,
) -> Result<bool, Fail> {
    let Some(item) = reader.next(alloc, src)? else {
        return Ok(false);
    };
    tell(text, &item)?;
    Ok(true)
}

/// All that a stream tells.
fn told<S: Source>(alloc: Global, src: &mut S) -> Result<Vec<u8>, Fail> {
    let mut reader = Reader::new();
    let mut text = Vec::new(alloc);
    for _ in 0..100 {
        if !tell_next(alloc, &mut reader, src, &mut text)? {
            break;
        }
    }
    Ok(text)
}

/// What is told of a source that gives one byte at a time.
fn told_slowly(alloc: Global, stream: &[u8]) -> Result<Vec<u8>, Fail> {
    let mut slow = Slow {
        rest: stream,
        given: History::new(),
        ended: History::new(),
    };
    told(alloc, &mut slow)
}

/// What is told of a source that gives all at once.
fn told_at_once(alloc: Global, stream: &[u8]) -> Result<Vec<u8>, Fail> {
    told(alloc, &mut ReadSource::new(stream))
}

/// Streams, and what they tell.
static STREAMS: [(&[u8], &[u8]); 16] = [
    (b"$g#67", b"[g]"),
    (b"+$m1000,8#92-$?#3f", b"+[m1000,8]-[?]"),
    (b"$qC#b4$qC#B4", b"[qC][qC]"),
    (b"$g#68$g#6g$g#67", b"??[g]"),
    (b"ab\n$g#67\r\n", b"[g]"),
    (b"\x03$\x03#03\x03", b"![\x03]!"),
    (b"$#00", b"[]"),
    (b"$}\x03#80", b"[#]"),
    (b"$0* #7a", b"[0000]"),
    (b"$* #4a", b"?"),
    (b"$0*#5a", b"?"),
    (b"$a}#de", b"?"),
    (b"$a$g#ec", b"?"),
    (b"$g#67$g#6", b"[g]"),
    (b"$g", b""),
    (b"", b""),
];

#[test]
fn streams_are_told(rt: HostRuntime) -> Result<(), Fail> {
    for (stream, expected) in &STREAMS {
        let slowly = told_slowly(rt.alloc(), stream)?;
        assert!(rt; slowly.as_slice() == *expected, "{stream:?}");
        let at_once = told_at_once(rt.alloc(), stream)?;
        assert!(rt; at_once.as_slice() == *expected, "{stream:?}");
    }
    Ok(())
}

/// Payloads, and the packets that they are written as.
static PAYLOADS: [(&[u8], &[u8]); 4] = [
    (b"OK", b"$OK#9a"),
    (b"", b"$#00"),
    (b"#$*}", b"$}\x03}\x04}\x0a}\x5d#62"),
    (b"\x00\xff", b"$\x00\xff#ff"),
];

/// The packet that a payload is written as.
fn packet_of(alloc: Global, payload: &[u8]) -> Result<Vec<u8>, RunError> {
    let mut text = Vec::new(alloc);
    write_packet(alloc, payload, &mut WriteSink::new(&mut text))?;
    Ok(text)
}

#[test]
fn payloads_are_written(rt: HostRuntime) -> Result<(), Fail> {
    for (payload, expected) in &PAYLOADS {
        let text = packet_of(rt.alloc(), payload)?;
        assert!(rt; text.as_slice() == *expected, "{payload:?}");
    }
    Ok(())
}

/// Whether what is to be sent for an item is added to a text.
fn adds(text: &mut Vec<u8>, item: &Item) -> bool {
    acknowledge(item, &mut WriteSink::new(text)) == Ok(())
}

#[test]
fn packets_are_acknowledged(rt: HostRuntime) {
    let mut text = Vec::new(rt.alloc());
    assert!(rt; adds(&mut text, &Item::Packet(Vec::new(rt.alloc()))));
    assert!(rt; adds(&mut text, &Item::Accepted));
    assert!(rt; adds(&mut text, &Item::Spoilt));
    assert!(rt; text.as_slice() == b"+-".as_slice());
}

/// A packet of so many bytes `a`, of which the sum is 61 (hexadecimal) times as much.
fn long_packet(alloc: Global, count: u32, digits: &[u8]) -> Result<Vec<u8>, Fail> {
    let mut text = Vec::new(alloc);
    text.push(b'$')?;
    text.resize(count as usize + 1, b'a')?;
    text.push(b'#')?;
    text.extend_from_slice(digits)?;
    Ok(text)
}

#[test]
fn packets_end_at_65536_bytes(rt: HostRuntime) -> Result<(), Fail> {
    let most = long_packet(rt.alloc(), 65_536, b"00")?;
    let text = told_at_once(rt.alloc(), &most)?;
    assert_eq!(rt; text.len(), 65_538);
    let more = long_packet(rt.alloc(), 65_537, b"61")?;
    let text = told_at_once(rt.alloc(), &more)?;
    assert!(rt; text.as_slice() == b"?".as_slice());
    Ok(())
}
