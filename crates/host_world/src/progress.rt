//! How far a command is, told on standard error.

ghost use Rattle.std.specs.Prelude.{◌≡◌, None, false};

use hunter::{HuntObserver, ShrinkObserver};
use machine::{Observer, UntracedMachine};
use plan_hunt::{Row, are_well};
use program_files::ProgressLine;
use std::sync::atomic::{AtomicBool, AtomicU32, AtomicU64, Ordering};
use std::time::Instant;

/// Tells once a second how far a command is, in a line that is written over the one before it. Where nobody asks for that, it
/// tells nothing. The threads of a hunt share it.
#[derive(Drop)]
pub struct HostProgress<'a> {
    rt: &'a HostRuntime,
    /// When the command began, where it is told how far it is.
    pub clock: Option<Instant>,
    /// How many rounds or plans there are in all.
    pub all: u32,
    /// When the command began, and for how many seconds it begins plans, where there is such a limit.
    limit: Option<(Option<Instant>, u32)>,
    /// After so many seconds the last line was written; 0: none was.
    told: AtomicU64,
    /// Whether a line was written and not ended.
    is_open: AtomicBool,
    /// How many plans a block of a hunt has at least, so that each worker has one.
    least: u32,
    /// How many plans the last block of a hunt had at most.
    block: AtomicU32,
    /// After so many milliseconds it ended.
    block_ended: AtomicU64,
    /// How many plans were run, or tried in the search for a smaller one.
    plans: AtomicU64,
    /// How many rounds the runs of a hunt, or the executions of a search, have done.
    rounds: AtomicU64,
    /// How many endings a hunt had found before its last block, and how many of them were bad.
    endings: AtomicU64,
    bad: AtomicU64,
}

impl<'a> HostProgress<'a> {
    /// Tells, where it is asked for, how far a command is that has so many rounds or plans to do. A hunt by so many workers has a plan for each
    /// in its first block, and begins no plan after so many seconds, if there is such a limit. Where the time can't be read there is none left.
    pub(crate) fn new(
        rt: &'a HostRuntime,
        asked: bool,
        all: u32,
        workers: u32,
        seconds: Option<u32>,
    ) -> HostProgress<'a>
        ensures all { result.all ≡ all }
        ensures silent { asked ≡ false → result.clock ≡ None }
    {
        HostProgress {
            rt,
            clock: if asked { now(rt) } else { None },
            all,
            limit: match seconds {
                Some(seconds) => Some((now(rt), seconds)),
                None => None,
            },
            told: AtomicU64::new(0),
            is_open: AtomicBool::new(false),
            least: workers,
            block: AtomicU32::new(workers),
            block_ended: AtomicU64::new(0),
            plans: AtomicU64::new(0),
            rounds: AtomicU64::new(0),
            endings: AtomicU64::new(0),
            bad: AtomicU64::new(0),
        }
    }

    /// How many seconds ago the command began, where that is a greater number than when a line was last written.
    fn next_second(&self) -> Option<u64> {
        let seconds = self.clock?.elapsed(self.rt).ok()?.as_secs();
        if self.told.fetch_max(seconds, Ordering::SeqCst) >= seconds {
            return None;
        }
        self.is_open.store(true, Ordering::SeqCst);
        Some(seconds)
    }

    /// How many plans the next block of a hunt has: about as many as a second has time for.
    fn next_block(&self) -> u32 {
        let block = self.block.load(Ordering::SeqCst);
        let Some(start) = self.clock else {
            return u32::MAX;
        };
        let Ok(passed) = start.elapsed(self.rt) else {
            return block;
        };
        let passed = u64::try_from(passed.as_millis()).unwrap_or(u64::MAX);
        let took = passed.saturating_sub(self.block_ended.swap(passed, Ordering::SeqCst));
        let next = if took < 500 {
            block.saturating_mul(2)
        } else if took > 2000 {
            (block / 2).max(self.least)
        } else {
            block
        };
        self.block.store(next, Ordering::SeqCst);
        next
    }

    /// Tells how far a search for missing fences is.
    fn tell_fences(&self) {
        if let Some(seconds) = self.next_second() {
            let (done, all) = (self.plans.load(Ordering::SeqCst), self.all);
            let failing = self.endings.load(Ordering::SeqCst);
            let rounds = self.rounds.load(Ordering::SeqCst);
            let _unwritten = eprint!(self.rt;
                "\rnumber {done} of {all}, {failing} fail for want of a fence, {rounds} rounds, {seconds} s\x1b[K"
            );
        }
    }

    /// Tells how far a hunt is.
    fn tell_hunt(&self) {
        let Some(seconds) = self.next_second() else {
            return;
        };
        let (done, all) = (self.plans.load(Ordering::SeqCst), self.all);
        let endings = self.endings.load(Ordering::SeqCst);
        let bad = self.bad.load(Ordering::SeqCst);
        let rounds = self.rounds.load(Ordering::SeqCst);
        let _unwritten = eprint!(self.rt;
            "\rplan {done} of {all}, {endings} endings, {bad} of them bad, {rounds} rounds, {seconds} s\x1b[K"
        );
    }
}

/// The time, where it can be read.
fn now(rt: &HostRuntime) -> Option<Instant> {
    Instant::now(rt).ok()
}

impl Observer for HostProgress<'_> {
    fn after_round(&mut self, machine: &UntracedMachine) {
        let Some(seconds) = self.next_second() else {
            return;
        };
        let (rounds, all) = (machine.rounds(), self.all);
        let mut running: u32 = 0;
        let mut instructions: u64 = 0;
        for hart in machine.harts() {
            instructions = instructions.wrapping_add(hart.done);
            running = running.wrapping_add(u32::from(hart.stop.is_none()));
        }
        let _unwritten = eprint!(self.rt;
            "\rround {rounds} of {all}, {running} harts running, {instructions} instructions, {seconds} s\x1b[K"
        );
    }
}

impl HuntObserver for HostProgress<'_> {
    fn before_block(&self, _done: u32, rows: &[Row]) -> u32 {
        let bad = rows
            .iter()
            .filter(|row| !are_well(row.ending.stops()))
            .count();
        self.endings.store(rows.len() as u64, Ordering::SeqCst);
        self.bad.store(bad as u64, Ordering::SeqCst);
        self.tell_hunt();
        self.next_block()
    }

    fn has_time(&self) -> bool {
        match self.limit {
            None => true,
            Some((None, _)) => false,
            Some((Some(start), seconds)) => match start.elapsed(self.rt) {
                Ok(passed) => passed.as_secs() < u64::from(seconds),
                Err(_) => false,
            },
        }
    }

    fn after_plan(&self) {
        if self.clock.is_some() {
            let _before = self.plans.fetch_add(1, Ordering::SeqCst);
            self.tell_hunt();
        }
    }

    fn after_rounds(&self, rounds: u32) {
        if self.clock.is_some() {
            let _before = self.rounds.fetch_add(u64::from(rounds), Ordering::SeqCst);
            self.tell_hunt();
        }
    }
}

impl ShrinkObserver for HostProgress<'_> {
    fn after_run(&mut self, rows: usize) {
        let runs = self.plans.fetch_add(1, Ordering::SeqCst).saturating_add(1);
        if let Some(seconds) = self.next_second() {
            let _unwritten = eprint!(self.rt; "\r{runs} runs, {rows} rows, {seconds} s\x1b[K");
        }
    }
}

impl ProgressLine for HostProgress<'_> {
    fn expect(&mut self, all: u32) {
        self.all = all;
    }

    fn end(&self) {
        if self.is_open.swap(false, Ordering::SeqCst) {
            let _unwritten = eprintln!(self.rt);
        }
    }

    fn before_numbers(&self, failing: usize) -> u32 {
        self.endings.store(failing as u64, Ordering::SeqCst);
        self.tell_fences();
        self.next_block()
    }

    fn after_number(&self) {
        if self.clock.is_some() {
            let _before = self.plans.fetch_add(1, Ordering::SeqCst);
            self.tell_fences();
        }
    }

    fn after_execution(&self, rounds: u32) {
        if self.clock.is_some() {
            let _before = self.rounds.fetch_add(u64::from(rounds), Ordering::SeqCst);
            self.tell_fences();
        }
    }

    fn look(&mut self, nodes: u64, stores: u64, endings: u64) -> bool {
        if let Some(seconds) = self.next_second() {
            let _unwritten = eprint!(self.rt;
                "\r{nodes} nodes, up to {stores} stores, {endings} endings, {seconds} s\x1b[K"
            );
        }
        self.has_time()
    }
}
