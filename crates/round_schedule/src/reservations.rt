ghost use Rattle.std.specs.Prelude.{◌≡◌, ℕ, ◌+◌, ◌≤◌, ◌<◌, List, length, take, Option, None, replicate, ◌==◌, ◌≢◌, ◌↔◌, IsTrue, if◌then◌else◌, false};
ghost use Rattle.pages.specs.Memory.{in_range, width_bytes};
ghost use Rattle.round_schedule.specs.declared.span.Span.{Span};
ghost use Rattle.round_schedule.specs.Held.{unless};
ghost use Rattle.round_schedule.specs.Reservations.{entry, Sets, Drops, Breaks};
ghost use Rattle.round_schedule.specs.Broken.{is_span};

use crate::bounds::MOST_HARTS;
use crate::overlap::unless_broken;
use crate::span::Span;
use pages::Width;
use std::marker::Model;

/// How many entries there is room for.
const ROOM: usize = MOST_HARTS as usize;

/// The reservation of each hart (manual, section 8.2): the bytes of its last LR, or none.
#[derive(Drop)]
pub struct Reservations {
    entries: [Option<Span>; ROOM],
    harts: usize,
    /// Whether a hart may have a reservation. Where not, no entry is looked at.
    any: bool,
}

impl Model for Reservations {
    ghost use Rattle.std.specs.Prelude.{◌≡◌, ◌<◌, ◌≤◌, ℕ, List, Option, None, false, take};
    ghost use Rattle.round_schedule.specs.declared.bounds.TheConstants.{MOST_HARTS};
    ghost use Rattle.round_schedule.specs.declared.span.Span.{Span};
    ghost use Rattle.round_schedule.specs.Reservations.{entry};

    ghost Value = { List (Option Span) };

    ghost view = { λ r. take r.harts r.entries };

    ghost invariant = { λ r. (r.harts ≤ MOST_HARTS) ×
        (r.any ≡ false → (h : ℕ) → h < r.harts → entry r.entries h ≡ None) };
}

impl Reservations {
    /// No hart of `harts`, at most 64, has a reservation.
    pub fn new(harts: u32) -> Self
        requires { harts ≤ MOST_HARTS }
        ensures { result ≡ replicate harts None }
    {
        Reservations {
            entries: [None; ROOM],
            harts: harts as usize,
            any: false,
        }
    }

    /// Gives the hart this reservation, in place of any older one.
    pub fn set(&mut self, hart: u32, address: u64, width: Width)
        requires { hart < length self.old }
        ensures { Sets hart (record { address = address; width = width }) self.old self.new }
    {
        self.entries[hart as usize] = Some(Span { address, width });
        self.any = true;
    }

    /// Whether the hart has the reservation of just these bytes; it has none afterwards.
    pub fn take(&mut self, hart: u32, address: u64, width: Width) -> bool
        requires { hart < length self.old }
        ensures answer { result ≡
            is_span (entry self.old hart) (record { address = address; width = width }) }
        ensures drops { Drops hart self.old self.new }
    {
        let held = self.entries[hart as usize];
        self.entries[hart as usize] = None;
        held == Some(Span { address, width })
    }

    /// Drops the reservations of other harts of which a byte is written.
    pub fn break_by(&mut self, hart: u32, address: u64, width: Width)
        ensures { Breaks hart (record { address = address; width = width }) self.old self.new }
    {
        if !self.any {
            return;
        }
        let span = Span { address, width };
        self.any = break_others(&mut self.entries[..self.harts], hart as usize, span);
    }

    /// Whether no other hart than this one has a reservation.
    #[inline]
    pub fn is_only_of(&self, hart: u32) -> bool
        ensures { IsTrue result ↔
            ((h : ℕ) → h < length self.now → hart ≢ h → entry self.now h ≡ None) }
    {
        !self.any || no_others(&self.entries[..self.harts], hart as usize)
    }

    /// Whether the two hold the same.
    pub fn is_same(&self, other: &Reservations) -> bool
        ensures { IsTrue result ↔ (self.now ≡ other.now) }
    {
        are_same(&self.entries[..self.harts], &other.entries[..other.harts])
    }

    /// An equal value.
    pub fn copy(&self) -> Reservations
        ensures { result ≡ self.now }
    {
        Reservations {
            entries: self.entries,
            harts: self.harts,
            any: self.any,
        }
    }
}

fn are_same(entries: &[Option<Span>], others: &[Option<Span>]) -> bool
    ensures { IsTrue result ↔ (entries.now ≡ others.now) }
{
    entries == others
}

fn no_others(entries: &[Option<Span>], hart: usize) -> bool
    ensures { IsTrue result ↔
        ((h : ℕ) → h < length entries.now → hart ≢ h → entry entries.now h ≡ None) }
{
    for other in 0..entries.len() {
        if other != hart && entries[other].is_some() {
            return false;
        }
    }
    true
}

/// Breaks the entries of other harts that share a byte with a span. Answers whether an entry is left.
fn break_others(entries: &mut [Option<Span>], hart: usize, span: Span) -> bool
    ensures breaks { Breaks hart span entries.old entries.new }
    ensures none { result ≡ false → (h : ℕ) → h < length entries.new → entry entries.new h ≡ None }
{
    let mut left = false;
    for (other, entry) in entries.iter_mut().enumerate() {
        let rest = left_after(hart, span, other, *entry);
        *entry = rest;
        left = is_any(left, rest);
    }
    left
}

/// Whether there was one before, or this is one.
fn is_any(left: bool, entry: Option<Span>) -> bool
    ensures before { result ≡ false → left ≡ false }
    ensures this { result ≡ false → entry ≡ None }
{
    left || entry.is_some()
}

/// The entry of hart `other` that is left after a write of `hart`.
fn left_after(hart: usize, span: Span, other: usize, entry: Option<Span>) -> Option<Span>
    ensures { result ≡ (if hart == other then entry else unless
        (in_range span.address (width_bytes span.width)) entry) }
{
    if hart == other {
        entry
    } else {
        unless_broken(entry, span)
    }
}
