ghost use Rattle.std.specs.Prelude.{◌≡◌, codes};
ghost use Rattle.gdb_packets.specs.Commands.{by_rest, command_of, goto_of, hart_by, is_word};
ghost use Rattle.gdb_packets.specs.Fields.{behind_spelled, spelled_number};

use crate::command::Command;
use crate::fields::{behind_spelled, spelled_number};

/// A command of the user's.
pub(crate) fn command_of(text: &[u8]) -> Command
    ensures { result ≡ command_of text.now }
{
    if is_word(b"where", text) {
        return Command::Where;
    }
    if is_word(b"harts", text) {
        return Command::Harts;
    }
    if is_word(b"buffer", text) {
        return Command::Buffer;
    }
    if is_word(b"event", text) {
        return Command::Event;
    }
    if is_word(b"reservations", text) {
        return Command::Reservations;
    }
    if is_word(b"plan", text) {
        return Command::Plan;
    }
    if is_word(b"output", text) {
        return Command::Output;
    }
    if is_word(b"help", text) {
        return Command::Help;
    }
    if is_word(b"hits on", text) {
        return Command::HitsOn;
    }
    if is_word(b"hits off", text) {
        return Command::HitsOff;
    }
    match behind_spelled(b"goto ", text) {
        Some(rest) => goto_of(rest),
        None => Command::Unknown,
    }
}

/// Where the next run is to stop, behind its word.
fn goto_of(text: &[u8]) -> Command
    ensures { result ≡ goto_of text.now }
{
    if is_word(b"end", text) {
        return Command::GotoEnd;
    }
    let Some((round, rest)) = spelled_number(text) else {
        return Command::Unknown;
    };
    match rest {
        [] => Command::GotoRound(round),
        [_, ..] => place_of(round, rest),
    }
}

/// A place of a round, behind the round's number.
fn place_of(round: u64, text: &[u8]) -> Command
    ensures { result ≡ by_rest (behind_spelled (codes " ") text.now) (λ r.
        hart_by round (spelled_number r)) }
{
    let Some(rest) = behind_spelled(b" ", text) else {
        return Command::Unknown;
    };
    let Some((hart, rest)) = spelled_number(rest) else {
        return Command::Unknown;
    };
    let Some(rest) = behind_spelled(b" ", rest) else {
        return Command::Unknown;
    };
    match spelled_number(rest) {
        Some((place, [])) => Command::GotoPlace(round, hart, place),
        Some((_, [_, ..])) => Command::Unknown,
        None => Command::Unknown,
    }
}

/// Whether the text is the digits of this word.
fn is_word(word: &[u8], text: &[u8]) -> bool
    ensures { result ≡ is_word word.now text.now }
{
    match behind_spelled(word, text) {
        Some([]) => true,
        Some([_, ..]) => false,
        None => false,
    }
}
