//! Laws of the definitions, each the contract of a function that does nothing.

ghost use Rattle.byte_sources.specs.Laws.{ArrowsMeetAxiom, RepeatsReadFromTheSame, SourcesMeetAxiom};

/// Of a trace of rounds, the source of each byte that is read is the one of the load value axiom in the order by rounds.
pub fn sources_meet_axiom()
    ensures { SourcesMeetAxiom }
{}

/// Of a trace of rounds, a picture has an arrow between two events that it shows exactly where the later one read a byte
/// from the store that the earlier one is, by the load value axiom in the order by rounds; and a short one from above
/// exactly where it read a byte that memory opened with.
pub fn arrows_meet_axiom()
    ensures { ArrowsMeetAxiom }
{}

/// A load that repeats an earlier one has its sources. So one box with their number has the arrows of each of them.
pub fn repeats_read_from_the_same()
    ensures { RepeatsReadFromTheSame }
{}
