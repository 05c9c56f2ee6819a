//! Laws of the definitions, each the contract of a function that does nothing.

ghost use Rattle.execution_checker.specs.RunOrders.{OrdersOfRunsAreAllowed};

/// Every run in rounds is an execution that RVWMO allows, with all the manual's rules, in the order by rounds of its trace.
pub fn orders_of_runs_are_allowed()
    ensures { OrdersOfRunsAreAllowed }
{}
