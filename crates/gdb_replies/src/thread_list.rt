//! The list of threads, as a document of gdb's: `qXfer:threads:read`.

ghost use Rattle.std.specs.Prelude.{◌≡◌, ◌++◌, ◌+◌, ◌<◌, ◌^◌, IfOk, OnOk, codes};
ghost use Rattle.std.specs.Fmt.{decimal};
ghost use Rattle.gdb_replies.specs.Replies.{thread_element, thread_list_begin, thread_list_end, thread_words};
ghost use Rattle.gdb_replies.specs.Words.{thread_text};

use crate::note::ThreadNote;
use crate::payload::put_state;
use crate::text::{put, put_thread, put_words};
use pages::OutOfMemory;
use std::alloc::Global;

/// The list's beginning.
#[tactic(auto, unfolding(crate::specs::Replies::thread_list_begin))]
pub fn begin_thread_list(alloc: Global) -> Result<Vec<u8>, OutOfMemory>
    ensures { IfOk result (λ text. text.items ≡ thread_list_begin) }
{
    let mut text = Vec::new(alloc);
    put(&mut text, b"<?xml version=\"1.0\"?><threads>")?;
    Ok(text)
}

/// Adds a thread.
pub fn add_thread(text: &mut Vec<u8>, note: &ThreadNote) -> Result<(), OutOfMemory>
    requires { note.now.hart + 1 < 2 ^ 32 }
    ensures { OnOk result (text.new.items ≡ text.old.items ++ thread_element note.now) }
{
    put_id(text, b"<thread id=\"", note.hart + 1)?;
    put_name(text, note)
}

/// Adds a thread's number behind a word.
fn put_id(text: &mut Vec<u8>, word: &[u8], thread: u32) -> Result<(), OutOfMemory>
    ensures { OnOk result (text.new.items ≡
        text.old.items ++ (word.now ++ thread_text thread)) }
{
    put(text, word)?;
    put_thread(text, thread)
}

/// Adds a thread's name, and what is said of it.
fn put_name(text: &mut Vec<u8>, note: &ThreadNote) -> Result<(), OutOfMemory>
    ensures { OnOk result (text.new.items ≡ text.old.items ++
        ((codes "\" name=\"hart " ++ decimal note.now.hart) ++ thread_words note.now)) }
{
    put_words(text, b"\" name=\"hart ", u64::from(note.hart))?;
    put_thread_words(text, note)
}

/// Adds what is said of a thread, and the end of its element.
fn put_thread_words(text: &mut Vec<u8>, note: &ThreadNote) -> Result<(), OutOfMemory>
    ensures { OnOk result (text.new.items ≡ text.old.items ++ thread_words note.now) }
{
    put(text, b"\">")?;
    put_state(text, note)?;
    put(text, b"</thread>")
}

/// Adds the list's end.
#[tactic(auto, unfolding(crate::specs::Replies::thread_list_end))]
pub fn end_thread_list(text: &mut Vec<u8>) -> Result<(), OutOfMemory>
    ensures { OnOk result (text.new.items ≡ text.old.items ++ thread_list_end) }
{
    put(text, b"</threads>")
}
