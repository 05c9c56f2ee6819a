//! Laws of the definitions, each the contract of a function that does nothing.
ghost use Rattle.early_reads.specs.Laws.{LateOperationsOpen, LoadsAreCurrent, LoadsStayOnly};

/// Behind each move of a hart, a map of its code tells still which bytes it may load early, and a load that is early is of these.
pub fn loads_stay_only()
    ensures { LoadsStayOnly }
{}

/// Behind a late operation the map tells which bytes a hart may load early.
pub fn late_operations_open()
    ensures { LateOperationsOpen }
{}

/// Where a hart has passed the stores that are laid into memory, to the bytes that it may load early, each load behind is current.
pub fn loads_are_current()
    ensures { LoadsAreCurrent }
{}
