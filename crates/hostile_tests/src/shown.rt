//! What is shown of runs that keep no trace, into sinks that fail or take little at a time too.

use crate::devices::{Stride, writes};
use crate::harness::settings;
use emulation::{ShownState, show_run};
use machine::{GuestFiles, Observed, Settings, Unobserved};
use std::alloc::Global;
use std::sync::Wait;
use std::thread::Threads;

/// ADDI x17,x0,2; ECALL; ADDI x17,x0,1; ECALL: the next input byte is put out. Hart 1 finds no byte, and puts ff out.
const ECHO: &[u8] = b"\x93\x08\x20\0\x73\0\0\0\x93\x08\x10\0\x73\0\0\0";

/// Two harts and two rounds, in each of which a hart does one instruction before it waits, and one in its turn.
fn echoes() -> Settings<'static> {
    Settings {
        rounds: 2,
        ..settings(b"4\n")
    }
}

/// What is shown, and the text of that.
static SHOWN: [(ShownState, &[u8]); 3] = [
    (ShownState::State, STATE),
    (ShownState::Harts, HARTS),
    (ShownState::Output, b"A\xff"),
];

const STATE: &[u8] = b"rounds 2\n\
    hart 0 pc 0000000000000010 done 4 running\n\
    x11 0000000000000002\n\
    x17 0000000000000001\n\
    hart 1 pc 0000000000000010 done 4 running\n\
    x11 0000000000000002\n\
    x17 0000000000000001\n\
    memory 1\n\
    00000000 93082000730000009308100073000000\n\
    output 2\n\
    41ff\n\
    end\n";

/// The harts come with the length of the output.
const HARTS: &[u8] = b"rounds 2\n\
    hart 0 pc 0000000000000010 done 4 running\n\
    x11 0000000000000002\n\
    x17 0000000000000001\n\
    hart 1 pc 0000000000000010 done 4 running\n\
    x11 0000000000000002\n\
    x17 0000000000000001\n\
    output 2\n";

/// Whether what is shown of the run is this text, and all its ways into a sink that fails are told.
fn shows<R: Threads + Wait + Sync>(rt: &R, alloc: Global, shown: ShownState, text: &[u8]) -> bool {
    let asked = echoes();
    let guest = GuestFiles {
        image: ECHO,
        input: b"A",
    };
    writes(
        alloc,
        text,
        &[Stride::One, Stride::All],
        &|tray| {
            let mut nobody = Observed {
                observer: &mut Unobserved,
            };
            match show_run(rt, alloc, &guest, &asked, shown, &mut nobody, tray) {
                Ok(_) => Ok(()),
                Err(error) => Err(error),
            }
        },
    )
}

#[test]
fn states_harts_and_output_are_shown(rt: HostRuntime) {
    for (shown, text) in &SHOWN {
        assert!(rt; shows(&rt, rt.alloc(), *shown, text), "{text:?}");
    }
}
