//! What the user's commands say.

ghost use Rattle.std.specs.Prelude.{◌≡◌, ◌++◌, OnOk, codes};
ghost use Rattle.std.specs.Fmt.{decimal};
ghost use Rattle.gdb_replies.specs.CommandTexts.{hart_line, harts_text, help_text, pc_rest, plan_head, quota_text, reservation_line, reserved_rest, rounds_text, store_line, where_line, where_rest};
ghost use Rattle.gdb_replies.specs.Replies.{note_text};

use crate::note::ThreadNote;
use crate::payload::put_note_words;
use crate::text::{put, put_address, put_addressed, put_hex, put_words};
use pages::OutOfMemory;

/// What the commands are for, in a line each.
const HELP: &[u8] =
    b"where         where the run stands\nharts         where each hart is\nbuffer        which stores of the selected hart are not committed\nevent         what the instruction at which the run stands reads or writes\nreservations  which bytes each hart has reserved\nplan          how many instructions each hart may do in this round\noutput        what the program had put out when this round began\ngoto ROUND    the next continue stops where this round begins, once\ngoto ROUND HART PLACE  .. where the hart has done so many instructions\ngoto end      .. behind the last round\nhits on       each stop at a watchpoint tells what the instruction reads or writes\nhits off      it tells nothing, as at first\n";

/// What the user's commands are for.
#[tactic(auto, unfolding(crate::specs::CommandTexts::help_text))]
pub fn command_help() -> &'static [u8]
    ensures { result.now ≡ help_text }
{
    HELP
}

/// Adds a line that says where a hart is.
pub fn add_hart_line(text: &mut Vec<u8>, note: &ThreadNote) -> Result<(), OutOfMemory>
    ensures { OnOk result (text.new.items ≡ text.old.items ++ hart_line note.now) }
{
    put_note_words(text, note)?;
    put(text, b"\n")
}

/// Adds a line that says where the run stands: at a hart after so many instructions of the round, with this pc.
pub fn add_where_line(
    text: &mut Vec<u8>,
    note: &ThreadNote,
    count: u64,
    pc: u64,
) -> Result<(), OutOfMemory>
    ensures { OnOk result (text.new.items ≡ text.old.items ++ where_line note.now count pc) }
{
    put_note_words(text, note)?;
    put_where(text, count, pc)
}

/// Adds the rest of that line, behind where the hart is.
fn put_where(text: &mut Vec<u8>, count: u64, pc: u64) -> Result<(), OutOfMemory>
    ensures { OnOk result (text.new.items ≡ text.old.items ++ where_rest count pc) }
{
    put_words(text, b", after ", count)?;
    put_pc(text, pc)
}

/// Adds the pc, behind what comes before it.
fn put_pc(text: &mut Vec<u8>, pc: u64) -> Result<(), OutOfMemory>
    ensures { OnOk result (text.new.items ≡ text.old.items ++ pc_rest pc) }
{
    put_addressed(text, b" instructions of the round, pc ", pc)?;
    put(text, b"\n")
}

/// Adds the beginning of a line that says what each hart may do in a round: the round, and the budget of a serial turn.
pub fn add_plan_head(text: &mut Vec<u8>, round: u32, budget: u32) -> Result<(), OutOfMemory>
    ensures { OnOk result (text.new.items ≡ text.old.items ++ plan_head round budget) }
{
    put_words(text, b"round ", u64::from(round))?;
    put_words(text, b", budget ", u64::from(budget))?;
    put(text, b", quotas")
}

/// Adds how many instructions a hart may do.
pub fn add_quota(text: &mut Vec<u8>, quota: u32) -> Result<(), OutOfMemory>
    ensures { OnOk result (text.new.items ≡ text.old.items ++ quota_text quota) }
{
    put_words(text, b" ", u64::from(quota))
}

/// Adds a line with the bytes of a store behind their address.
pub fn add_store_line(text: &mut Vec<u8>, address: u64, bytes: &[u8]) -> Result<(), OutOfMemory>
    ensures { OnOk result (text.new.items ≡ text.old.items ++ store_line address bytes.now) }
{
    put_address(text, address)?;
    put(text, b" ")?;
    put_hex(text, bytes)?;
    put(text, b"\n")
}

/// Adds a line that says how many bytes from an address on a hart has reserved.
pub fn add_reservation_line(
    text: &mut Vec<u8>,
    hart: u32,
    count: u64,
    address: u64,
) -> Result<(), OutOfMemory>
    ensures { OnOk result (text.new.items ≡ text.old.items ++ reservation_line hart count address) }
{
    put_words(text, b"hart ", u64::from(hart))?;
    put_words(text, b", ", count)?;
    put_reserved(text, address)
}

/// Adds where the bytes are, behind how many.
fn put_reserved(text: &mut Vec<u8>, address: u64) -> Result<(), OutOfMemory>
    ensures { OnOk result (text.new.items ≡ text.old.items ++ reserved_rest address) }
{
    put_addressed(text, b" bytes at ", address)?;
    put(text, b"\n")
}

/// Adds a line that says how many rounds a recording has.
pub fn add_rounds_line(text: &mut Vec<u8>, rounds: u32) -> Result<(), OutOfMemory>
    ensures { OnOk result (text.new.items ≡ text.old.items ++ rounds_text rounds) }
{
    put_words(text, b"the recording has ", u64::from(rounds))?;
    put(text, b" rounds\n")
}

/// Adds a line that says how many harts a recording has.
pub fn add_harts_line(text: &mut Vec<u8>, harts: u32) -> Result<(), OutOfMemory>
    ensures { OnOk result (text.new.items ≡ text.old.items ++ harts_text harts) }
{
    put_words(text, b"the recording has ", u64::from(harts))?;
    put(text, b" harts\n")
}
