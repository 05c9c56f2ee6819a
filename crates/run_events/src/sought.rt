ghost use Rattle.std.specs.Prelude.{List, [], Option, None};
ghost use Rattle.pages.specs.declared.access.Range.{Range};
ghost use Rattle.run_events.specs.declared.rounds.Rounds.{Rounds as Within};

use crate::rounds::Rounds;
use pages::Range;
use std::marker::Brand;

/// Which events of a run are sought.
#[derive(Clone, Copy)]
pub struct Sought<'a> {
    /// Those that hit one of these ranges. A range ends at its start plus its length, without wrap; an empty one has no bytes.
    pub ranges: &'a [Range],
    /// Of these rounds alone, where they are told.
    pub within: Option<Rounds>,
}

/// What is sought of a run, in proofs alone. Each call that seeks picks it.
pub(crate) trait Search {
    ghost ranges: { List Range };

    ghost within: { Option Within };
}

impl Search for Brand {
    ghost ranges = { [] };

    ghost within = { None };
}
