//! Laws of the definitions, each the contract of a function that does nothing.

ghost use Rattle.memory_order.specs.Fewer.{FewerAreMet};
ghost use Rattle.memory_order.specs.Runs.{OrdersOfRunsMeetRvwmo};

/// Every run in rounds over sound instructions meets RVWMO: the order by rounds of its trace meets the axioms, over the
/// bytes of the run's start.
///
/// `memory_order` gives this order.
pub fn orders_of_runs_meet_rvwmo<H, C>()
    ensures { OrdersOfRunsMeetRvwmo H C }
{}

/// RVWMO is monotone in its dependencies: an order that keeps more of them keeps fewer.
///
/// So a yes under the wider rule for traces, or under any reading that orders more, stands for the readings that order less.
pub fn fewer_dependencies_are_met()
    ensures { FewerAreMet }
{}
