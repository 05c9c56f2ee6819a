ghost use Rattle.serial_phase.specs.Asking.{AskingByReservations};
ghost use Rattle.serial_phase.specs.Decided.{AlikeIsDecided, EarlierGoesRound, GoingRoundComesBack};
ghost use Rattle.serial_phase.specs.Forgetting.{CountsAreForgotten};
ghost use Rattle.serial_phase.specs.Returning.{LaterComesBack, RunsComeBack, RunsGoRound};

/// No instruction looks at how many its hart has done; and but for the call for the number of the round, none looks at that.
pub fn counts_are_forgotten()
    ensures { CountsAreForgotten }
{}

/// A run that comes back to where it was never ends: after any number of further rounds the same harts have stopped, so each hart
/// that runs there runs for ever under this plan.
pub fn runs_come_back<H, K, C>()
    ensures { RunsComeBack H K C }
{}

/// Each later state of such a run comes back too, after as many rounds.
pub fn later_comes_back<H, K, C>()
    ensures { LaterComesBack H K C }
{}

/// The state after any number of times these rounds and some further ones is like that after the further ones alone.
pub fn runs_go_round<H, K, C>()
    ensures { RunsGoRound H K C }
{}

/// Where a list of reservations is what the trace says, a hart asks for a round's number over the list where it does over the
/// trace.
pub fn asking_by_reservations<H, C>()
    ensures { AskingByReservations H C }
{}

/// `are_alike` answers whether all that later rounds depend on is the same in two states.
pub fn alike_is_decided()
    ensures { AlikeIsDecided }
{}

/// A run that `goes_round` says so of comes back from the middle of its rounds on.
pub fn going_round_comes_back()
    ensures { GoingRoundComesBack }
{}

/// A run that is found back anywhere on its way to the middle, after no more rounds than there are from there on, goes round. So
/// where it is looked for makes no difference to what is said.
pub fn earlier_goes_round()
    ensures { EarlierGoesRound }
{}
