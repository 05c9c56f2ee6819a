//! Laws of the definitions, each the contract of a function that does nothing.

ghost use Rattle.list_suffixes.specs.ApartRuns.{RunsAreKept};
ghost use Rattle.list_suffixes.specs.CurrentRuns.{CurrentRunsAreOfThoseKept};
ghost use Rattle.list_suffixes.specs.LateDebts.{LateDebtsAreLost, TouchedDebtsAreLost};
ghost use Rattle.list_suffixes.specs.NodeWalks.{NodeTablesAreWhole};
ghost use Rattle.list_suffixes.specs.Serving.{FirstNodeServes, LongerListsAreServed, RaisedNodesServe, StandingNodesServe};
ghost use Rattle.list_suffixes.specs.SettledWalks.{SettledWalksComePast};
ghost use Rattle.list_suffixes.specs.KeptMoves.{MovesAreKept};

/// A move that does none of the stores of a list that are laid into memory, and reads what they left, is one against those that stay, from each
/// state that is ahead.
pub fn moves_are_kept()
    ensures { MovesAreKept }
{}

/// So is a run of such moves, from each spot that stands for where it begins, and what it comes to stands for where it ends.
pub fn runs_are_kept()
    ensures { RunsAreKept }
{}

/// A run whose stores stay in a list, and whose loads read what the others left, is of those that stay.
pub fn current_runs_are_of_those_kept()
    ensures { CurrentRunsAreOfThoseKept }
{}

/// Where harts begin serves the empty list.
pub fn first_node_serves()
    ensures { FirstNodeServes }
{}

/// With one store more, a node serves the longer lists.
pub fn longer_lists_are_served()
    ensures { LongerListsAreServed }
{}

/// A node that stands for another one serves what that one serves.
pub fn standing_nodes_serve()
    ensures { StandingNodesServe }
{}

/// A node of which some stores are laid into memory serves what it served, if the runs of harts come past its new spots.
pub fn raised_nodes_serve()
    ensures { RaisedNodesServe }
{}

/// Runs come past the new spots of a node if the spots that they come to by what is known alone are walked, and there is a new spot wherever they
/// go on by something else, or end.
pub fn settled_walks_come_past()
    ensures { SettledWalksComePast }
{}

/// If a node serves the empty list, what comes next at each node leads to one that serves the longer lists, and a table has the endings to which
/// their spots lead, then it has the ending of every execution that RVWMO allows of at most so many instructions a hart.
pub fn node_tables_are_whole()
    ensures { NodeTablesAreWhole }
{}

/// A hart that owes a store, and goes on by a late load on which a branch comes next, is lost with the branch.
pub fn late_debts_are_lost()
    ensures { LateDebtsAreLost }
{}

/// A hart that owes a store, and goes on by a late operation on one of its bytes, is lost.
pub fn touched_debts_are_lost()
    ensures { TouchedDebtsAreLost }
{}
