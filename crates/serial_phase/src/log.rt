ghost use Rattle.std.specs.Prelude.{◌≡◌, ℕ, ◌+◌, ◌-◌, ◌≤◌, ◌<◌, [], ◌∷◌, ◌++◌, List, option_to_list, length, take, drop, OnOk, slice_index_or};
ghost use Rattle.serial_phase.specs.Turns.{count_log, start_of};

use pages::OutOfMemory;
use round_schedule::{Access, MOST_HARTS};
use std::alloc::Global;
use std::marker::Model;

/// How many turns there is room for.
const ROOM: usize = MOST_HARTS as usize;

/// The accesses of the serial turns of one round, turn by turn.
pub struct SerialLog {
    accesses: Vec<Access>,
    ends: [usize; ROOM],
    turns: usize,
}

// By hand, so that a proof has one step for it wherever one is dropped, in this crate and above.
impl Drop for SerialLog {
    fn drop(self) {
        let SerialLog {
            accesses,
            ends: _,
            turns: _,
        } = self;
        drop(accesses);
    }
}

impl Model for SerialLog {
    ghost use Rattle.std.specs.Prelude.{◌≡◌, ◌-◌, ◌≤◌, take, length, vec_len, vec_capacity};
    ghost use Rattle.round_schedule.specs.declared.bounds.TheConstants.{MOST_HARTS};
    ghost use Rattle.serial_phase.specs.Turns.{Turns, turns_at, open_turn, AreEnds};

    ghost Value = { Turns };

    ghost view = { λ l. record {
      closed = turns_at l.accesses.items 0 (take l.turns l.ends);
      current = open_turn l.accesses.items 0 (take l.turns l.ends);
      room = vec_capacity l.accesses - vec_len l.accesses;
    } };

    ghost invariant = { λ l. (l.turns ≤ MOST_HARTS) ×
        AreEnds 0 (take l.turns l.ends) (length l.accesses.items) ×
        (length (take l.turns l.ends) ≡ l.turns) };
}

impl SerialLog {
    /// No turn yet; this takes no memory.
    pub fn new(alloc: Global) -> Self
        ensures closed { result.closed ≡ [] }
        ensures current { result.current ≡ [] }
    {
        SerialLog {
            accesses: Vec::new(alloc),
            ends: [0; ROOM],
            turns: 0,
        }
    }

    /// Makes room for so many further accesses.
    pub fn reserve(&mut self, n: usize) -> Result<(), OutOfMemory>
        ensures closed { self.new.closed ≡ self.old.closed }
        ensures current { self.new.current ≡ self.old.current }
        ensures ok { OnOk result (n ≤ self.new.room) }
    {
        match self.accesses.reserve(n) {
            Ok(()) => Ok(()),
            Err(_) => Err(OutOfMemory),
        }
    }

    /// Drops all turns, and keeps the room.
    pub fn clear(&mut self)
        ensures closed { self.new.closed ≡ [] }
        ensures current { self.new.current ≡ [] }
        ensures room { self.old.room ≤ self.new.room }
    {
        self.accesses.clear();
        self.turns = 0;
    }

    /// Adds an access to the turn that is under way.
    pub fn push(&mut self, access: Access)
        requires { 0 < self.old.room }
        ensures closed { self.new.closed ≡ self.old.closed }
        ensures current { self.new.current ≡ self.old.current ++ access ∷ [] }
        ensures room { self.old.room ≤ self.new.room + 1 }
    {
        self.accesses.push(access).unwrap();
    }

    /// Ends the turn that is under way; the next one begins.
    pub fn end_turn(&mut self)
        requires { length self.old.closed < MOST_HARTS }
        ensures closed { self.new.closed ≡ self.old.closed ++ self.old.current ∷ [] }
        ensures current { self.new.current ≡ [] }
        ensures room { self.new.room ≡ self.old.room }
    {
        self.ends[self.turns] = self.accesses.len();
        self.turns += 1;
    }

    /// How many accesses the turns have that ended, while none is under way.
    pub fn len(&self) -> usize
        requires { self.now.current ≡ [] }
        ensures { result ≡ count_log self.now.closed }
    {
        self.accesses.len()
    }

    /// The accesses of a hart's turn, in program order; none where it had no turn.
    pub fn events(&self, hart: u32) -> &[Access]
        ensures { result.now ≡ slice_index_or self.now.closed hart [] }
    {
        let turn = hart as usize;
        if turn >= self.turns {
            return &[];
        }
        between(&self.accesses, start_of(&self.ends, turn), self.ends[turn])
    }
}

/// Where a turn begins: at the end of the one before.
fn start_of(ends: &[usize], turn: usize) -> usize
    requires { turn < length ends.now }
    ensures { result ≡ start_of 0 ends.now turn }
{
    if turn == 0 { 0 } else { ends[turn - 1] }
}

fn between(accesses: &[Access], start: usize, end: usize) -> &[Access]
    requires rises { start ≤ end }
    requires within { end ≤ length accesses.now }
    ensures { result.now ≡ take (end - start) (drop start accesses.now) }
{
    &accesses[start..end]
}

/// Adds an access to the turn that is under way, where there is one.
pub(crate) fn keep(log: &mut SerialLog, access: Option<Access>)
    requires { 0 < log.old.room }
    ensures current { log.new.current ≡ log.old.current ++ option_to_list access }
    ensures closed { log.new.closed ≡ log.old.closed }
    ensures room { log.old.room ≤ log.new.room + 1 }
{
    match access {
        Some(access) => log.push(access),
        None => {}
    }
}
