use fence_trials::{Found, Spot, Trial, TrialObserver};
use pages::OutOfMemory;
use plan_hunt::{HuntObserver, Row};

/// How many executions are made first with a fence. Each block after the second has as many as were made before it.
const FIRST_BLOCK: u32 = 64;

/// A number that fails at a spot is looked for. An observer learns of the rounds.
#[derive(Clone, Copy)]
pub(crate) struct AtSpot<'a, O> {
    pub spot: Spot,
    pub observer: &'a O,
}

impl<O: HuntObserver> TrialObserver for AtSpot<'_, O> {
    ghost use Rattle.std.specs.Prelude.{◌↔◌, IsTrue};
    ghost use Rattle.fence_trials.specs.Trials.{FailsAt};

    ghost answers = { λ o t b. IsTrue b ↔ FailsAt o.spot t };

    fn before_numbers(&self, done: u32, _founds: &[Found]) -> u32 {
        done.max(FIRST_BLOCK)
    }

    fn is_over_with(&self, trial: &Trial) -> Result<bool, OutOfMemory> {
        Ok(trial.fails_at(self.spot))
    }
}

impl<O: HuntObserver> HuntObserver for AtSpot<'_, O> {
    fn before_block(&self, _done: u32, _rows: &[Row]) -> u32 {
        u32::MAX
    }

    fn has_time(&self) -> bool {
        true
    }

    fn after_plan(&self) {}

    fn after_rounds(&self, rounds: u32) {
        self.observer.after_rounds(rounds);
    }
}
