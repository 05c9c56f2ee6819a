//! Laws of the definitions, each the contract of a function that does nothing.

ghost use Rattle.execution_moments.specs.Laws.{HartsRespectProgramOrder, LoadsReadWhatIsShown};

use execution_views::loads_read_what_is_seen;

/// In the order of time each hart does its instructions in program order.
pub fn harts_respect_program_order()
    ensures { HartsRespectProgramOrder }
{}

/// At the moment of a load its hart is shown to see what the load reads, in each execution that RVWMO allows.
pub fn loads_read_what_is_shown()
    ensures { LoadsReadWhatIsShown }
{
    loads_read_what_is_seen();
}
