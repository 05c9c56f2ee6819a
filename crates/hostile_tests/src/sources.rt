//! Sources that fail, serve little at a time, or end at once.

use crate::devices::{Spool, Stride};
use host_io::{ReadSource, RunError, read_all};
use std::alloc::Global;
use std::test::Fail;

/// A reader of all these bytes.
fn spool(bytes: &[u8], stride: Stride) -> Spool<'_> {
    Spool {
        rest: bytes,
        stride,
        failing: None,
        calls: 0,
    }
}

/// How many calls it takes to read these bytes; nothing where other bytes are read.
fn calls_to_read(alloc: Global, bytes: &[u8], stride: Stride) -> Option<usize> {
    let mut source = spool(bytes, stride);
    let Ok(read) = read_all(alloc, &mut ReadSource::new(&mut source)) else {
        return None;
    };
    if read.as_slice() == bytes {
        Some(source.calls)
    } else {
        None
    }
}

/// Whether a failure of each of so many calls is answered by nothing but that, and no call comes after it.
fn is_told(alloc: Global, bytes: &[u8], stride: Stride, calls: usize) -> bool {
    for failing in 0..calls {
        let mut source = spool(bytes, stride);
        source.failing = Some(failing);
        let answer = read_all(alloc, &mut ReadSource::new(&mut source));
        if answer.err() != Some(RunError::SourceFailed) || source.calls != failing + 1 {
            return false;
        }
    }
    true
}

#[test]
fn all_is_read_or_nothing(rt: HostRuntime) {
    let bytes = [7; 9000];
    for (count, stride, calls) in [
        // the last call says the end
        (0, Stride::One, 1),
        (0, Stride::All, 1),
        (300, Stride::One, 301),
        (9000, Stride::All, 4),
    ] {
        let bytes = &bytes[..count];
        assert_eq!(rt; calls_to_read(rt.alloc(), bytes, stride), Some(calls));
        assert!(rt; is_told(rt.alloc(), bytes, stride, calls));
    }
    assert_eq!(rt; RunError::SourceFailed.number(), 61);
}
