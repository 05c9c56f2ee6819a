//! Where the stores to each word of memory stand in a trace.

ghost use Rattle.std.specs.Prelude.{◌≡◌, ℕ, ◌<◌, ◌≤◌, ◌+◌, ◌/◌, ◌%◌, ◌&&◌, ◌++◌, ◌∷◌, [], IfOk, IsTrue, List, OnOk, length, true};
ghost use Rattle.round_schedule.specs.declared.event.Event.{Event};
ghost use Rattle.round_schedule.specs.Accesses.{address_of, bytes_of, writes};
ghost use Rattle.round_schedule.specs.Positions.{event};
ghost use Rattle.byte_sources.specs.Sources.{gives, last_below, sees, source};
ghost use Rattle.trace_events.specs.Writers.{Indexes, after_last, is_same_bytes, is_same_doer, past, stores_word};

use byte_sources::{sees, writes};
use pages::OutOfMemory;
use round_schedule::{Access, Event};
use std::alloc::Global;

/// The stores among the first events of a trace, by the words of 8 bytes that they write to. Indexes are counted from 1 here; 0 says
/// that there is none.
///
/// From a store that doesn't give a byte one goes back past all that don't for the same reason. So a hart that polls a word which
/// another one stores over and over costs no walk over these stores.
#[derive(Drop)]
pub(crate) struct Writers {
    /// For each word the last store to it.
    pub(crate) last: Vec<usize>,
    /// For each event that is a store the last one before it to the same word that another hart did, or the same one in another
    /// round.
    pub(crate) of_others: Vec<usize>,
    /// For each event that is a store the last one before it to the same word, but not of the same bytes.
    pub(crate) of_other_bytes: Vec<usize>,
    /// Each store lies in one word.
    pub(crate) exact: bool,
}

impl Writers {
    /// Of no events, for so many words of memory.
    pub(crate) fn new(alloc: Global, words: usize) -> Result<Writers, OutOfMemory>
        ensures { IfOk result (λ w. (t : List Event) → Indexes t 0 w) }
    {
        let Ok(last) = vec![in alloc; 0; words] else {
            return Err(OutOfMemory);
        };
        Ok(Writers {
            last,
            of_others: Vec::new(alloc),
            of_other_bytes: Vec::new(alloc),
            exact: true,
        })
    }

    /// Adds the event that comes next.
    pub(crate) fn add(&mut self, events: &[Event], index: usize) -> Result<(), OutOfMemory>
        requires index { index < length events.now }
        requires before { Indexes events.now index self.old }
        ensures { OnOk result (Indexes events.now (index + 1) self.new) }
    {
        let access = &event_at(events, index).access;
        if !access.stores() {
            return self.note(0, 0);
        }
        self.exact = stays_exact(self.exact, access);
        let word = (access.address() / 8) as usize;
        if word >= self.last.len() {
            return self.note(0, 0);
        }
        let before = self.last[word];
        let of_others = past_own(&self.of_others, events, index, before);
        let of_other_bytes = past_same_bytes(&self.of_other_bytes, events, index, before);
        self.last[word] = index + 1;
        self.note(of_others, of_other_bytes)
    }

    /// Notes what stands before one more event.
    fn note(&mut self, of_others: usize, of_other_bytes: usize) -> Result<(), OutOfMemory>
        ensures last { self.new.last ≡ self.old.last }
        ensures exact { self.new.exact ≡ self.old.exact }
        ensures others { OnOk result (self.new.of_others.items ≡
            self.old.of_others.items ++ of_others ∷ []) }
        ensures other_bytes { OnOk result (self.new.of_other_bytes.items ≡
            self.old.of_other_bytes.items ++ of_other_bytes ∷ []) }
    {
        push(&mut self.of_others, of_others)?;
        push(&mut self.of_other_bytes, of_other_bytes)
    }

    /// The index of the store that a byte of the event at an index is from; `None` where it is as memory opened.
    #[tactic(auto, unfolding(byte_sources::specs::Sources::source))]
    pub(crate) fn source(&self, events: &[Event], index: usize, byte: u64) -> Option<usize>
        requires index { index < length events.now }
        requires before { Indexes events.now index self.now }
        ensures { result ≡ source events.now index byte }
    {
        let word = (byte / 8) as usize;
        if self.exact && word < self.last.len() {
            self.walk(events, index, byte, self.last[word])
        } else {
            look_back(events, index, byte)
        }
    }

    /// The same, from the last store to the word on, and from each past those that don't give the byte for the same reason.
    fn walk(&self, events: &[Event], index: usize, byte: u64, last: usize) -> Option<usize>
        requires index { index < length events.now }
        requires before { Indexes events.now index self.now }
        requires exact { self.now.exact ≡ true }
        requires word { byte / 8 < length self.now.last.items }
        requires last { last ≡ after_last (stores_word events.now (byte / 8)) index }
        ensures { result ≡ last_below (gives events.now (event events.now index) byte) index }
    {
        let mut next = last;
        while next > 0 {
            let writer = next - 1;
            let store = event_at(events, writer);
            if !sees(event_at(events, index), store) {
                next = self.of_others[writer];
            } else if !writes(&store.access, byte) {
                next = self.of_other_bytes[writer];
            } else {
                return Some(writer);
            }
        }
        None
    }
}

/// From an event past the stores before it to the same word, of which the last is `before`, that its hart did in its round.
fn past_own(of_others: &[usize], events: &[Event], index: usize, before: usize) -> usize
    requires index { index < length events.now }
    requires before { before ≤ index }
    requires size { length of_others.now ≡ index }
    ensures { result ≡ past is_same_doer events.now of_others.now index before }
{
    if before > 0 && is_same_doer(event_at(events, before - 1), event_at(events, index)) {
        of_others[before - 1]
    } else {
        before
    }
}

/// The same past those of the same bytes.
fn past_same_bytes(of_other_bytes: &[usize], events: &[Event], index: usize, before: usize) -> usize
    requires index { index < length events.now }
    requires before { before ≤ index }
    requires size { length of_other_bytes.now ≡ index }
    ensures { result ≡ past is_same_bytes events.now of_other_bytes.now index before }
{
    if before > 0 && is_same_bytes(event_at(events, before - 1), event_at(events, index)) {
        of_other_bytes[before - 1]
    } else {
        before
    }
}

/// Whether two events are of one hart and one round.
fn is_same_doer(one: &Event, other: &Event) -> bool
    ensures { result ≡ is_same_doer one.now other.now }
{
    one.round == other.round && one.hart == other.hart
}

/// Whether two events are of the same bytes.
fn is_same_bytes(one: &Event, other: &Event) -> bool
    ensures { result ≡ is_same_bytes one.now other.now }
{
    one.access.address() == other.access.address()
        && one.access.byte_count() == other.access.byte_count()
}

/// Adds a number to a list.
fn push(list: &mut Vec<usize>, number: usize) -> Result<(), OutOfMemory>
    ensures { OnOk result (list.new.items ≡ list.old.items ++ number ∷ []) }
{
    match list.push(number) {
        Ok(()) => Ok(()),
        Err(_) => Err(OutOfMemory),
    }
}

/// The same, by all events before it.
fn look_back(events: &[Event], index: usize, byte: u64) -> Option<usize>
    requires { index < length events.now }
    ensures { result ≡ last_below (gives events.now (event events.now index) byte) index }
{
    let mut before = index;
    while before > 0 {
        before -= 1;
        if gives(event_at(events, before), event_at(events, index), byte) {
            return Some(before);
        }
    }
    None
}

/// The event at an index.
fn event_at(events: &[Event], index: usize) -> &Event
    requires { index < length events.now }
    ensures { result.now ≡ event events.now index }
{
    &events[index]
}

/// Whether stores lie in one word each, as they did before, also with this access.
fn stays_exact(exact: bool, access: &Access) -> bool
    ensures still { IsTrue result → IsTrue exact }
    ensures lies { IsTrue result → address_of access.now % 8 + bytes_of access.now ≤ 8 }
{
    exact && access.address() % 8 + access.byte_count() <= 8
}

/// Whether the one event writes a byte, and the other, which is later, may see it.
fn gives(writer: &Event, reader: &Event, byte: u64) -> bool
    ensures { result ≡ writes writer.now.access byte && sees reader.now writer.now }
{
    writes(&writer.access, byte) && sees(reader, writer)
}
