//! Laws of the definitions, each the contract of a function that does nothing.

ghost use Rattle.all_endings.specs.Decoded.{RegistersAreRegisters};
ghost use Rattle.all_endings.specs.Determined.{LoadsAreDetermined};
ghost use Rattle.all_endings.specs.Earlier.{EarlierMovesAreLower};
ghost use Rattle.all_endings.specs.Endings.{BoundsSuffice, EndsAreLast};
ghost use Rattle.all_endings.specs.Judging.{JudgedExecutionsCount};
ghost use Rattle.all_endings.specs.Lowering.{LowerStatesDoAsMuch};
ghost use Rattle.all_endings.specs.Offering.{ClosedListsHaveAll};
ghost use Rattle.all_endings.specs.Sources.{LoadsReadInTime, PreservedInTime, SeenStays};
ghost use Rattle.all_endings.specs.Stopping.{StopsAreKnown};
ghost use Rattle.all_endings.specs.StoreLists.{StoresStandAtTimes};
ghost use Rattle.all_endings.specs.Tables.{ClosedTablesAreWhole};
ghost use Rattle.all_endings.specs.Times.{OperationsStandInTime};
ghost use Rattle.all_endings.specs.Factorizing.{Factorizes, RunsStartThere};
ghost use Rattle.all_endings.specs.Walking.{WalkedTablesAreWhole};
ghost use Rattle.all_endings.specs.Locality.{ActionIsLocal, ActionIsLocalButData, DestinationsAreWritten, FilledActs, SetsRefine, StepIsLocal};

/// Two register files that agree on an instruction's source registers give one action.
pub fn actions_are_local()
    ensures { ActionIsLocal }
{}

/// Where they agree on its address, and on what it computes from, the actions differ at most in the number that is stored.
pub fn actions_are_local_but_data()
    ensures { ActionIsLocalButData }
{}

/// Beside ECALL, the register that an action writes is the destination that dependencies see.
pub fn destinations_are_written()
    ensures { DestinationsAreWritten }
{}

/// Harts that agree on an instruction's source registers take one step: one answer, the same stores, the same number for the same register.
pub fn steps_are_local()
    ensures { StepIsLocal }
{}

/// Over registers some of which are unknown, an instruction whose sources are known acts as over any registers that refine them.
pub fn known_sources_act()
    ensures { FilledActs }
{}

/// A number, or an unknown one, that is put into a register keeps that the registers refine.
pub fn writes_keep_refining()
    ensures { SetsRefine }
{}

/// In each execution that RVWMO allows, each operation stands, in times, where the bounds of its hart's earlier ones let it: by the
/// rules 1, 4 to 7, 9 to 11 and 13 (manual, section 14.1.3), however many stores are known.
pub fn operations_stand_in_time()
    ensures { OperationsStandInTime }
{}

/// Where every hart has stopped, no step is left.
pub fn ends_are_last()
    ensures { EndsAreLast }
{}

/// A store of an order stands in the list of stores at its time, and stands before a load's time just where it stands before the load.
pub fn stores_stand_at_times()
    ensures { StoresStandAtTimes }
{}

/// A hart's run against a list of stores begins where the hart does.
pub fn runs_start_there()
    ensures { RunsStartThere }
{}

/// Each of the thirteen rules of preserved program order (manual, section 14.1.3) is a lower bound for a time.
pub fn rules_bound_times()
    ensures { PreservedInTime }
{}

/// A byte of a load that is not LATER is the hart's own last store's, where that stands behind the load, and else that of the last store before
/// the load's time in the list.
pub fn loads_read_in_time()
    ensures { LoadsReadInTime }
{}

/// Where a load has read a store, a later one of its hart reads that one or a later one.
pub fn what_was_seen_stays()
    ensures { SeenStays }
{}

/// The registers of every instruction of an execution are registers.
pub fn registers_are_registers()
    ensures { RegistersAreRegisters }
{}

/// Each hart of an execution that RVWMO allows has a run against the first stores of the order.
pub fn harts_have_runs()
    ensures { Factorizes }
{}

/// Lists of stores that are closed under the stores that may come next have the first stores of each order that RVWMO allows.
pub fn closed_lists_have_all()
    ensures { ClosedListsHaveAll }
{}

/// If lists of stores are closed, and a table has the endings over them, then it has the ending of every execution that RVWMO allows of at
/// most so many instructions a hart.
pub fn closed_tables_are_whole()
    ensures { ClosedTablesAreWhole }
{}

/// What a state of a run can do, each one can whose bounds are at most its own.
pub fn lower_states_do_as_much()
    ensures { LowerStatesDoAsMuch }
{}

/// If in each of some lists places of the harts' runs cover what each move of each of them leads to, with a list stand those that it can be
/// followed by, and a table has the endings to which places lead, then it has the ending of every execution that RVWMO allows of at most so
/// many instructions a hart.
pub fn walked_tables_are_whole()
    ensures { WalkedTablesAreWhole }
{}

/// Of moves that do the same the earliest leaves the lowest state: so a load takes the least time at which it reads what it reads.
pub fn earlier_moves_are_lower()
    ensures { EarlierMovesAreLower }
{}

/// What the checker of executions allows, over the bytes of the image, is one of the executions that a table has to have the ending of.
pub fn judged_executions_count()
    ensures { JudgedExecutionsCount }
{}

/// A table that has the endings of all executions of at most k instructions a hart, for each k, has all endings.
pub fn bounds_suffice()
    ensures { BoundsSuffice }
{}

/// At one time a load gets one number, from the same stores: so its choices are its times.
pub fn loads_are_determined()
    ensures { LoadsAreDetermined }
{}

/// Where all its registers are known, a run can halt in one way: as the instruction at its pc says.
pub fn stops_are_known()
    ensures { StopsAreKnown }
{}
