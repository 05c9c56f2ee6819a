//! The executions of one number.
ghost use Rattle.std.specs.Prelude.{IfOk};
ghost use Rattle.fence_trials.specs.Trials.{IsJudged};

use crate::departing::Departing;
use crate::executer::Executer;
use crate::failing::{Failing, Judgement};
use crate::guest::{FenceGuest, Span, copied};
use crate::ordinary::Ordinary;
use departures::Departure;
use pages::OutOfMemory;
use plan_hunt::HuntObserver;
use timed_machine::TimedMachine;

/// A number of a guest, whose executions are made beside ordinary runs. An observer learns of their rounds.
#[derive(Drop)]
pub(crate) struct Attempt<'a, 'b, O> {
    pub guest: &'a FenceGuest<'b>,
    pub ordinary: &'a Ordinary,
    pub number: u32,
    pub observer: &'a O,
}

impl<O: HuntObserver> Attempt<'_, '_, O> {
    /// What comes of the execution with these departures, by whoever makes it.
    pub fn judgement_by<E: Executer>(
        &self,
        executer: &E,
        departing: Departing<'_>,
    ) -> Result<Judgement, OutOfMemory>
        ensures { IfOk result (IsJudged
            (E.comes_to self.now.guest.now departing.entry self.now.number)
            self.now.ordinary.now) }
    {
        let (guest, number) = (self.guest, self.number);
        let span = self.ordinary.whole_span();
        let came = executer.execute(guest, departing, number, span, self.observer)?;
        Ok(self.ordinary.judgement_of(&came))
    }

    /// How the execution with these departures fails, if it does.
    pub fn failing(&self, departing: Departing<'_>) -> Result<Option<Failing>, OutOfMemory> {
        let (guest, span) = (self.guest, self.ordinary.whole_span());
        let came = guest.come_to(self.number, departing, span, self.observer)?;
        match self.ordinary.judgement_of(&came) {
            Judgement::Fails(failing) => Ok(Some(failing)),
            Judgement::Cut | Judgement::Well | Judgement::Void => Ok(None),
        }
    }

    /// How it seems to fail, if it does: one that runs on is taken to do so by any plan.
    pub fn seeming(&self, departing: Departing<'_>) -> Result<Option<Failing>, OutOfMemory> {
        let (guest, span) = (self.guest, self.ordinary.own_span());
        let came = guest.come_to(self.number, departing, span, self.observer)?;
        match self.ordinary.judgement_of(&came) {
            Judgement::Fails(failing) => Ok(Some(failing)),
            Judgement::Cut if self.ordinary.hangs_after.is_some() => Ok(Some(Failing::Stuck)),
            Judgement::Cut | Judgement::Well | Judgement::Void => Ok(None),
        }
    }

    /// The machine of the execution with these departures within so many steps, with its record.
    pub fn made(&self, departing: Departing<'_>, span: Span) -> Result<TimedMachine, OutOfMemory> {
        self.guest
            .execute(self.number, departing, true, span, self.observer)
    }

    /// The departures that the number draws, as far as they take effect.
    pub fn drawn_departures(&self) -> Result<Vec<Departure>, OutOfMemory> {
        let machine = self.made(Departing::Drawn, self.ordinary.own_span())?;
        let drawn = match machine.record() {
            Some(record) => copied(self.guest.alloc, record.departures()),
            None => Ok(Vec::new(self.guest.alloc)),
        };
        drop(machine);
        drawn
    }
}
