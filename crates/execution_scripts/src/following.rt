//! The steps of a file: each hart's, with the numbers that its line has, in the order that the calls say.

ghost use Rattle.std.specs.Prelude.{◌≡◌, ◌≢◌, ◌-◌, ◌+◌, ◌%◌, ◌^◌, ◌<◌, ◌≤◌, ℕ, List, IfErr, IfOk, None, OnOk, Some, length, map, slice_get, slice_index, slice_set};
ghost use Rattle.guest_rounds.specs.Guests.{opening_guest};
ghost use Rattle.execution_file.specs.Recorded.{Turn as TurnSaid};
ghost use Rattle.execution_file.specs.Views.{hart_view, turn_view};
ghost use Rattle.execution_scripts.specs.declared.fault.Halt.TheVariants as halts;
ghost use Rattle.execution_scripts.specs.Findings.{start_of};
ghost use Rattle.execution_scripts.specs.Following.{AreCalled, AreFollowed, Calls, Ends, HaveEnded, IsEnd, IsRound, Reads, StopsWith, calls, done_by, line_of, round_from, stop_by};
ghost use Rattle.execution_scripts.specs.Misfits.{HasNoRound, IsEndMisfit, IsFaultAfter, IsFaultAt, IsGoMisfit, IsCallMisfit, IsStepMisfit, IsUnfollowed, StopsInCall, StopsInEnd};
ghost use Rattle.execution_scripts.specs.Courses.{AreWithin, Course, HasRun, IsOn, OnFault, Took};

use crate::calls::{Taken, call_number, taken_at};
use crate::ending::{end_misfit, has_stray_value};
use crate::fault::{Fault, Halt, Misfit};
use crate::misreading::{misfit_for, misread};
use crate::way::Way;
use elf_loader::Image;
use execution_checker::ScriptedStep;
use execution_file::{HartDeeds, Turn, number_shown};
use execution_views::HartStep;
use hart_step::Stop;
use pages::OutOfMemory;
use round_schedule::{Event, MOST_HARTS};
use std::alloc::Global;

/// Harts on their way through an execution.
#[derive(Drop)]
pub struct Follower<'a> {
    pub(crate) way: Way,
    /// What the harts are said to do.
    parts: &'a [HartDeeds],
    /// How many numbers of its line each hart has read.
    used: Vec<usize>,
    round: u32,
}

impl<'a> Follower<'a> {
    /// Harts of an image and an input that have done nothing yet, one for each of these parts.
    pub fn open(
        alloc: Global,
        image: &Image,
        input: &[u8],
        parts: &'a [HartDeeds],
        asked: Option<HartStep>,
    ) -> Result<Follower<'a>, OutOfMemory>
        requires { length parts.now ≤ MOST_HARTS }
        ensures on { IfOk result (λ f.
            let g = opening_guest image.now input.now (length parts.now) in
            IsOn (record {
              image = g.shared.memory;
              start = start_of g;
              lines = map hart_view parts.now;
              asked = asked;
            }) 0 f) }
        ensures standing { IfOk result (λ f.
            f.way.execution.standing ≡ start_of
            (opening_guest image.now input.now (length parts.now))) }
    {
        let used = vec![in alloc; 0usize; parts.len()]?;
        let way = Way::open(alloc, image, input, parts.len() as u32, asked)?;
        Ok(Follower {
            way,
            parts,
            used,
            round: 0,
        })
    }

    /// The number of the next read of a hart.
    fn said(&self, hart: u8) -> Option<u64>
        ensures { result ≡ slice_get (line_of (map hart_view self.now.parts.now) hart).reads
            (slice_index self.now.used.items hart) }
    {
        let used = match self.used.get(usize::from(hart)) {
            Some(used) => *used,
            None => 0,
        };
        let part = self.parts.get(usize::from(hart))?;
        part.reads.get(used).copied()
    }

    /// How many instructions a hart has done.
    pub fn done(&self, hart: u8) -> u64
        ensures { result ≡ done_by self.now.way.execution.standing hart }
    {
        match self.way.execution.harts().get(usize::from(hart)) {
            Some(hart) => hart.done,
            None => 0,
        }
    }

    /// How many instructions a hart has still to do.
    fn left(&self, hart: u8) -> u64
        ensures fits { (line_of (map hart_view self.now.parts.now) hart).steps < 2 ^ 64 }
        ensures left { result ≡ (line_of (map hart_view self.now.parts.now) hart).steps
            - done_by self.now.way.execution.standing hart }
    {
        self.steps(hart).saturating_sub(self.done(hart))
    }

    /// How many instructions a hart is said to do.
    fn steps(&self, hart: u8) -> u64
        ensures { result ≡ (line_of (map hart_view self.now.parts.now) hart).steps }
    {
        match self.parts.get(usize::from(hart)) {
            Some(part) => part.steps,
            None => 0,
        }
    }

    /// Sets the number of the round from here on.
    pub fn set_round(&mut self, round: u32) {
        self.round = round;
    }

    /// The next step of a hart, on the number that its line has.
    fn next_step(&self, hart: u8) -> ScriptedStep
        ensures hart { result.hart ≡ hart }
        ensures round { result.round ≡ self.now.round }
        ensures number { result.number ≡ slice_get
            (line_of (map hart_view self.now.parts.now) hart).reads
            (slice_index self.now.used.items hart) }
    {
        let number = self.said(hart);
        ScriptedStep {
            hart,
            round: self.round,
            number,
            holds: number == Some(1),
        }
    }

    /// The next step of a hart.
    pub fn step(&mut self, hart: u8) -> Result<Taken, Halt>
        ensures took { IfOk result (λ taken. (c : Course) (n : ℕ) → IsOn c n self.old →
            hart < length c.lines → IsOn c n self.new ×
            Took taken c.image (line_of c.lines hart) n hart self.old.way.execution.standing
            self.new.way.execution.standing) }
        ensures misfit { IfErr result (λ halt.
            OnFault halt (λ f. (c : Course) (n : ℕ) → IsOn c n self.old → hart < length c.lines →
            IsFaultAt IsStepMisfit c.image (line_of c.lines hart) n hart
            self.old.way.execution.standing f)) }
    {
        let done = self.done(hart);
        let call = call_number(&self.way.execution, hart);
        let index = self.way.execution.instructions().len();
        let events = self.way.execution.events().len();
        let step = self.next_step(hart);
        if let Some(fault) = self.way.take(step)? {
            return Err(fault_at(hart, done, misfit_for(fault, step.number)));
        }
        match self.event_at(events) {
            Some(event) => {
                let read = number_shown(&event.access);
                if let Some(misfit) = misread(read, step.number) {
                    return Err(fault_at(hart, done, misfit));
                }
                self.count(hart, read);
                Ok(taken_at(&self.way.execution, index, call))
            }
            None => Ok(Taken::Stopped),
        }
    }

    /// The event at an index.
    fn event_at(&self, index: usize) -> Option<Event>
        ensures { result ≡ slice_get self.now.way.execution.standing.events index }
    {
        self.way.execution.events().get(index).copied()
    }

    /// Counts a number that a hart read, if it read one.
    fn count(&mut self, hart: u8, read: Option<u64>)
        ensures way { self.new.way ≡ self.old.way }
        ensures parts { self.new.parts.now ≡ self.old.parts.now }
        ensures round { self.new.round ≡ self.old.round }
        ensures none { read ≡ None → self.new.used.items ≡ self.old.used.items }
        ensures one { (v : ℕ) → read ≡ Some v → self.new.used.items ≡
            slice_set self.old.used.items hart
            ((slice_index self.old.used.items hart + 1) % 2 ^ 64) }
    {
        if read.is_none() {
            return;
        }
        if let Some(used) = self.used.get_mut(usize::from(hart)) {
            *used = used.wrapping_add(1);
        }
    }

    /// The next instruction of a hart: whether it is a call.
    fn go(&mut self, hart: u8) -> Result<bool, Halt>
        ensures went { IfOk result (λ is_call. (c : Course) (n : ℕ) → IsOn c n self.old →
            hart < length c.lines → IsOn c n self.new ×
            ((s : Reads c.image (line_of c.lines hart) n hart self.old.way.execution.standing
            self.new.way.execution.standing) × (calls s ≡ is_call))) }
        ensures misfit { IfErr result (λ halt.
            OnFault halt (λ f. (c : Course) (n : ℕ) → IsOn c n self.old → hart < length c.lines →
            IsFaultAt IsGoMisfit c.image (line_of c.lines hart) n hart
            self.old.way.execution.standing f)) }
    {
        let done = self.done(hart);
        match self.step(hart)? {
            Taken::Done => Ok(false),
            Taken::Called { .. } => Ok(true),
            Taken::Stopped => Err(fault_at(hart, done, Misfit::Stops)),
        }
    }

    /// Enters the round that answers a call.
    fn enter(&mut self, turn: &Turn) -> Result<(), Halt>
        ensures way { OnOk result (self.new.way ≡ self.old.way) }
        ensures round { OnOk result ((c : Course) (n : ℕ) → IsOn c n self.old →
            IsOn c (round_from n turn.now.number) self.new × IsRound n turn.now.number) }
        ensures misfit { IfErr result (λ halt.
            OnFault halt (λ f. (c : Course) (n : ℕ) → IsOn c n self.old →
            HasNoRound n (turn_view turn.now) self.old.way.execution.standing f)) }
    {
        let Some(round) = turn.number else {
            return Ok(());
        };
        if round > u64::from(u32::MAX) || round < u64::from(self.round) {
            return Err(fault_at(turn.hart, self.done(turn.hart), Misfit::NoRound));
        }
        self.round = round as u32;
        Ok(())
    }

    /// A hart's steps up to its next call.
    fn call(&mut self, hart: u8) -> Result<(), Halt>
        ensures called { OnOk result ((c : Course) (n : ℕ) → IsOn c n self.old →
            AreWithin c.lines self.old.way.execution.standing →
            IsOn c n self.new × AreWithin c.lines self.new.way.execution.standing ×
            Calls c.image (line_of c.lines hart) n hart self.old.way.execution.standing
            self.new.way.execution.standing) }
        ensures misfit { IfErr result (λ halt.
            OnFault halt (λ f. (c : Course) (n : ℕ) → IsOn c n self.old →
            AreWithin c.lines self.old.way.execution.standing →
            IsFaultAfter IsCallMisfit c.image (line_of c.lines hart) n hart 0
            self.old.way.execution.standing f)) }
    {
        for _step in 0..self.left(hart) {
            let is_call = self.go(hart)?;
            if is_call {
                return Ok(());
            }
        }
        Err(fault_at(hart, self.done(hart), Misfit::NoCall))
    }

    /// A hart's other instructions.
    fn run_on(&mut self, hart: u8) -> Result<(), Halt>
        ensures ran { OnOk result ((c : Course) (n : ℕ) → IsOn c n self.old →
            AreWithin c.lines self.old.way.execution.standing →
            IsOn c n self.new × AreWithin c.lines self.new.way.execution.standing ×
            HasRun c.image (line_of c.lines hart) n hart self.old.way.execution.standing
            self.new.way.execution.standing) }
        ensures misfit { IfErr result (λ halt.
            OnFault halt (λ f. (c : Course) (n : ℕ) → IsOn c n self.old →
            AreWithin c.lines self.old.way.execution.standing →
            (k : ℕ) ×
            IsFaultAfter IsEndMisfit c.image (line_of c.lines hart) n hart k
            self.old.way.execution.standing f)) }
    {
        for _step in 0..self.left(hart) {
            self.go(hart)?;
        }
        Ok(())
    }

    /// A hart's stop, as it is said.
    fn stop(&mut self, hart: u8, part: &HartDeeds) -> Result<(), Halt>
        ensures stops { OnOk result ((c : Course) (n : ℕ) → IsOn c n self.old →
            hart < length c.lines → IsOn c n self.new ×
            StopsWith c.image n hart part.now.code part.now.value self.old.way.execution.standing
            self.new.way.execution.standing) }
        ensures misfit { IfErr result (λ halt.
            OnFault halt (λ f. (c : Course) (n : ℕ) → IsOn c n self.old → hart < length c.lines →
            hart_view part.now ≡ line_of c.lines hart →
            done_by self.old.way.execution.standing hart ≡ part.now.steps → part.now.code ≢ 0 →
            IsFaultAt IsEndMisfit c.image (line_of c.lines hart) n hart
            self.old.way.execution.standing f)) }
    {
        let done = self.done(hart);
        let taken = self.step(hart)?;
        match end_misfit(taken, self.stop_of(hart), part) {
            Some(misfit) => Err(fault_at(hart, done, misfit)),
            None => Ok(()),
        }
    }

    /// The end of a hart that has done all its instructions: it runs on, or stops as is said.
    fn end(&mut self, hart: u8, part: &HartDeeds) -> Result<(), Halt>
        ensures ended { OnOk result ((c : Course) (n : ℕ) → IsOn c n self.old →
            AreWithin c.lines self.old.way.execution.standing →
            hart < length c.lines → hart_view part.now ≡ line_of c.lines hart →
            (part.now.code ≡ 0 → part.now.value ≡ None) →
            IsOn c n self.new × AreWithin c.lines self.new.way.execution.standing ×
            IsEnd c.image (line_of c.lines hart) n hart self.old.way.execution.standing
            self.new.way.execution.standing) }
        ensures misfit { IfErr result (λ halt.
            OnFault halt (λ f. (c : Course) (n : ℕ) → IsOn c n self.old → hart < length c.lines →
            hart_view part.now ≡ line_of c.lines hart →
            done_by self.old.way.execution.standing hart ≡ part.now.steps →
            IsFaultAt IsEndMisfit c.image (line_of c.lines hart) n hart
            self.old.way.execution.standing f)) }
    {
        if part.code == 0 {
            return Ok(());
        }
        self.stop(hart, part)
    }

    /// How a hart stopped; none where it runs.
    fn stop_of(&self, hart: u8) -> Option<Stop>
        ensures { result ≡ stop_by self.now.way.execution.standing hart }
    {
        match self.way.execution.harts().get(usize::from(hart)) {
            Some(hart) => hart.stop,
            None => None,
        }
    }

    /// A hart's other steps, and its stop.
    fn finish(&mut self, hart: u8, part: &HartDeeds) -> Result<(), Halt>
        ensures ended { OnOk result ((c : Course) (n : ℕ) → IsOn c n self.old →
            AreWithin c.lines self.old.way.execution.standing →
            hart < length c.lines → hart_view part.now ≡ line_of c.lines hart →
            IsOn c n self.new × AreWithin c.lines self.new.way.execution.standing ×
            Ends c.image (line_of c.lines hart) n hart self.old.way.execution.standing
            self.new.way.execution.standing) }
        ensures misfit { IfErr result (λ halt.
            OnFault halt (λ f. (c : Course) (n : ℕ) → IsOn c n self.old →
            AreWithin c.lines self.old.way.execution.standing → hart < length c.lines →
            hart_view part.now ≡ line_of c.lines hart →
            (k : ℕ) ×
            IsFaultAfter IsEndMisfit c.image (line_of c.lines hart) n hart k
            self.old.way.execution.standing f)) }
    {
        if has_stray_value(part) {
            return Err(fault_at(hart, self.done(hart), Misfit::RunsOnWithValue));
        }
        self.run_on(hart)?;
        let done = self.done(hart);
        self.end(hart, part)?;
        match self.said(hart) {
            Some(_) => Err(fault_at(hart, done, Misfit::NumbersLeft)),
            None => Ok(()),
        }
    }

    /// The calls of a file, in their order.
    fn follow_calls(&mut self, calls: &[Turn]) -> Result<(), Halt>
        ensures called { OnOk result ((c : Course) → IsOn c 0 self.old →
            AreWithin c.lines self.old.way.execution.standing →
            self.old.way.execution.standing ≡ c.start → (n : ℕ) × IsOn c n self.new ×
            AreWithin c.lines self.new.way.execution.standing ×
            AreCalled c.image c.lines c.start (map turn_view calls.now) n
            self.new.way.execution.standing) }
        ensures misfit { IfErr result (λ halt. OnFault halt (λ f. (c : Course) → IsOn c 0 self.old →
            AreWithin c.lines self.old.way.execution.standing →
            self.old.way.execution.standing ≡ c.start →
            StopsInCall c.image c.lines (map turn_view calls.now) c.start f)) }
    {
        for turn in calls {
            self.enter(turn)?;
            self.call(turn.hart)?;
        }
        Ok(())
    }

    /// The ends of the harts, one after another.
    fn follow_ends(&mut self) -> Result<(), Halt>
        ensures ended { OnOk result ((c : Course) (n : ℕ) → IsOn c n self.old →
            AreWithin c.lines self.old.way.execution.standing →
            IsOn c n self.new ×
            HaveEnded c.image c.lines n self.old.way.execution.standing (length c.lines)
            self.new.way.execution.standing) }
        ensures misfit { IfErr result (λ halt.
            OnFault halt (λ f. (c : Course) (n : ℕ) (turns : List TurnSaid) → IsOn c n self.old →
            AreWithin c.lines self.old.way.execution.standing →
            AreCalled c.image c.lines c.start turns n self.old.way.execution.standing →
            StopsInEnd c.image c.lines turns c.start f)) }
    {
        let parts = self.parts;
        let mut hart = 0u8;
        for part in parts {
            self.finish(hart, part)?;
            hart = hart.wrapping_add(1);
        }
        Ok(())
    }

    /// All that the file says: first the calls in their order, and then the harts, one after another.
    pub(crate) fn follow(&mut self, calls: &[Turn]) -> Result<(), Halt>
        ensures followed { OnOk result ((c : Course) → IsOn c 0 self.old →
            AreWithin c.lines self.old.way.execution.standing →
            self.old.way.execution.standing ≡ c.start → (n : ℕ) × IsOn c n self.new ×
            AreFollowed c.image c.lines (map turn_view calls.now) c.start
            self.new.way.execution.standing) }
        ensures misfit { IfErr result (λ halt. OnFault halt (λ f. (c : Course) → IsOn c 0 self.old →
            AreWithin c.lines self.old.way.execution.standing →
            self.old.way.execution.standing ≡ c.start →
            IsUnfollowed c.image c.lines (map turn_view calls.now) c.start f)) }
    {
        self.follow_calls(calls)?;
        self.follow_ends()
    }

    /// The execution that was followed.
    pub(crate) fn into_way(self) -> Way
        ensures { result ≡ self.entry.way }
    {
        let Follower { way, .. } = self;
        way
    }
}

/// What a hart does not as it is said after so many instructions.
fn fault_at(hart: u8, step: u64, misfit: Misfit) -> Halt
    ensures { result ≡ halts.Fault (record { hart = hart; step = step; misfit = misfit }) }
{
    Halt::Fault(Fault { hart, step, misfit })
}
