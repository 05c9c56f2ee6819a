//! What is told of the bytes that a line names, once what it asked for is out.

use crate::naming::watched_bytes;
use crate::past::Past;
use command_line::{Bytes, Replay, Watch};
use execution_commands::read_execution_text;
use program_files::{CommandFailure, World, is_in_memory, tell_of_decimals};
use std::alloc::Global;

/// Says on standard error what is to be known of the bytes that were watched. It is no failure where there is no memory for that.
pub(crate) fn tell_of_watched<W: World>(
    alloc: Global,
    past: &Past,
    asked: &Watch<'_>,
    world: &W,
) -> Result<(), CommandFailure> {
    match past {
        Past::Recording(recorded) => {
            let named = watched_bytes(alloc, recorded.image(), asked)?;
            tell_of_bytes(world, &named, recorded.pages());
            tell_of_decimals(world, recorded.image(), recorded.is_flat(), &named);
        }
        Past::Execution(text) => {
            let file = read_execution_text(alloc, text)?;
            let named = watched_bytes(alloc, &file.image, asked)?;
            tell_of_bytes(world, &named, file.pages);
            tell_of_decimals(world, &file.image, file.flat, &named);
        }
    }
    Ok(())
}

/// The same of the bytes that a hart was to see.
pub(crate) fn tell_of_seen<W: World>(
    alloc: Global,
    past: &Past,
    asked: &Replay<'_>,
    world: &W,
) -> Result<(), CommandFailure> {
    if asked.seen.is_empty() || asked.seen_is_unread {
        return Ok(());
    }
    match past {
        Past::Recording(recorded) => {
            tell_of_decimals(world, recorded.image(), recorded.is_flat(), &asked.seen);
        }
        Past::Execution(text) => {
            let file = read_execution_text(alloc, text)?;
            tell_of_decimals(world, &file.image, file.flat, &asked.seen);
        }
    }
    Ok(())
}

/// Says on standard error which of the bytes there aren't, or aren't all in memory of so many pages: so that nobody takes a wrong address
/// for one that is never touched.
fn tell_of_bytes<W: World>(world: &W, named: &[Bytes], pages: u32) {
    for bytes in named {
        let (address, length) = (bytes.address, bytes.length);
        if length == 0 {
            world.tell(format_args!("the range from 0x{address:x} on is empty"));
        } else if !is_in_memory(bytes, pages) {
            world.tell(format_args!(
                "the {length} bytes from 0x{address:x} on aren't all in guest memory"
            ));
        }
    }
}
