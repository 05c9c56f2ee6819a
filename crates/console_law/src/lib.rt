//! The guest's output and input over a whole run.
//!
//! The calls of a run are defined in `specs/` by the states that the schedule goes through, and the laws on them are the
//! contracts of functions that do nothing.
#![tactic(auto)]

ghost use Rattle.console_law.specs.Laws.{GetsTakeInput, OutputIsFirstPuts, PutsAreAnswered, TurnStatesAreTurn};

/// The output after a run is the first 1,048,576 bytes of all its put calls, in the order in which they were done.
///
/// So it is for every code, budget, quotas, number of rounds, harts, memory and input: rounds go in turn, in a round's
/// serial phase the harts in order, and in a hart's turn its instructions in order.
pub fn output_is_first_puts()
    ensures { OutputIsFirstPuts }
{}

/// The k-th get call of a run, from 0, is answered by byte k of the input, and by 2^64-1 where the input has no byte k.
///
/// So it is wherever each hart begins with 32 registers (manual, section 2.1). The answer is what x10 holds after the call.
pub fn gets_take_the_input_in_turn()
    ensures { GetsTakeInput }
{}

/// The k-th put call of a run, from 0, is answered by 0 where the output has room for it, which it has for the first
/// 1,048,576, and by 2^64-1 else. So it is wherever each hart begins with 32 registers (manual, section 2.1).
pub fn puts_are_answered_by_room()
    ensures { PutsAreAnswered }
{}

/// The states by which the calls of a turn are defined are the one sequence that is the turn.
pub fn turn_states_are_the_turn<H, C>()
    ensures { TurnStatesAreTurn H C }
{}
