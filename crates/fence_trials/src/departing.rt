ghost use Rattle.fence_trials.specs.Departing.{AreNone};

use departures::Departure;

/// Which memory operations of an execution depart from the order of their harts' programs.
#[derive(Clone, Copy)]
pub enum Departing<'a> {
    /// Those that the execution's number draws.
    Drawn,
    /// Just these, as far as they can.
    Listed(&'a [Departure]),
}

/// None at all.
pub(crate) fn no_departures() -> Departing<'static>
    ensures { AreNone result }
{
    Departing::Listed(&[])
}
