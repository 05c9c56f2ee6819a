//! The list of threads.

ghost use Rattle.std.specs.Prelude.{◌≡◌, ◌++◌, ◌+◌, IfOk, OnOk, codes};
ghost use Rattle.execution_moments.specs.Looked.{looked_at};
ghost use Rattle.execution_session.specs.Sessions.{position_at};
ghost use Rattle.execution_session.specs.Threads.{state_text, thread_element, thread_entries, thread_entry, thread_list};
ghost use Rattle.execution_moments.specs.Shown.{hart_at};
ghost use Rattle.gdb_replies.specs.Replies.{thread_list_begin, thread_list_end};

use crate::knowing::position_at;
use execution_moments::Past;
use gdb_replies::{begin_thread_list, end_thread_list, put, put_words};
use hart_step::{Hart, Stop};
use pages::OutOfMemory;
use std::alloc::Global;

/// Adds what is said of a hart: where its next memory operation stands in the order, and how many instructions it has done; or how it
/// ended.
fn put_state(
    text: &mut Vec<u8>,
    stop: Option<Stop>,
    position: u64,
    done: u64,
) -> Result<(), OutOfMemory>
    ensures { OnOk result (text.new.items ≡ text.old.items ++ state_text stop position done) }
{
    match stop {
        Some(stop) => {
            if stop.code == 1 {
                put_words(text, b"exit ", stop.value)
            } else {
                put_words(text, b"stop ", u64::from(stop.code))
            }
        }
        None => {
            put_words(text, b"position ", position)?;
            put_words(text, b", place ", done)
        }
    }
}

/// Adds a hart's thread.
fn put_thread(
    text: &mut Vec<u8>,
    number: u8,
    hart: &Hart,
    position: usize,
) -> Result<(), OutOfMemory>
    ensures { OnOk result (text.new.items ≡ text.old.items
        ++ thread_element number hart.now position) }
{
    put_words(text, b"<thread id=\"", u64::from(number) + 1)?;
    put_words(text, b"\" name=\"hart ", u64::from(number))?;
    put(text, b"\">")?;
    put_state(text, hart.stop, position as u64, hart.done)?;
    put(text, b"</thread>")
}

/// Adds a hart's thread at a time, where there is the hart.
fn put_entry(text: &mut Vec<u8>, past: &Past, time: usize, number: u8) -> Result<(), OutOfMemory>
    ensures { OnOk result (text.new.items ≡ text.old.items ++ thread_entry number
        (position_at (looked_at past.now) time number) (hart_at past.now.course time number)) }
{
    match past.course.hart_at(time, number) {
        Some(hart) => {
            let position = position_at(past, time, number);
            put_thread(text, number, &hart, position)
        }
        None => Ok(()),
    }
}

/// The list of all threads at a time.
///
/// # Errors
///
/// `OutOfMemory` alone.
#[tactic(auto, using(crate::proofs::Texts::assoc), unfolding(crate::specs::Threads::thread_entries))]
pub(crate) fn thread_list(alloc: Global, past: &Past, time: usize) -> Result<Vec<u8>, OutOfMemory>
    ensures { IfOk result (λ text. text.items ≡ thread_list (looked_at past.now) time) }
{
    let mut text = begin_thread_list(alloc)?;
    for number in 0..past.harts {
        put_entry(&mut text, past, time, number)?;
    }
    end_thread_list(&mut text)?;
    Ok(text)
}
