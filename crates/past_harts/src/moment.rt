ghost use Rattle.std.specs.Prelude.{◌≡◌};
ghost use Rattle.past_harts.specs.Moments.{comes_before, is_before, phase_number};

use crate::place::Place;
use round_schedule::Phase;

/// A moment of a run.
#[derive(Clone, Copy)]
pub struct Moment {
    /// How many rounds are done.
    pub rounds: u32,
    /// Where in the next one it is.
    pub place: Place,
}

impl Moment {
    /// Whether it comes before another one.
    pub fn is_before(&self, other: &Moment) -> bool
        ensures { result ≡ is_before self.now other.now }
    {
        self.rounds < other.rounds
            || (self.rounds == other.rounds && comes_before(&self.place, &other.place))
    }
}

/// The order of the phases in a round: 0 for the parallel phase, and 1 from the commit on.
pub fn phase_number(phase: Phase) -> u32
    ensures { result ≡ phase_number phase }
{
    match phase {
        Phase::Parallel => 0,
        Phase::Serial => 1,
    }
}

/// Whether a place comes before another one of its round.
fn comes_before(place: &Place, other: &Place) -> bool
    ensures { result ≡ comes_before place.now other.now }
{
    let phase = phase_number(place.phase);
    let later = phase_number(other.phase);
    phase < later
        || (phase == later
            && (place.hart < other.hart || (place.hart == other.hart && place.count < other.count)))
}
