ghost use Rattle.execution_views.specs.Laws.{LoadsReadWhatIsSeen};

/// What a hart sees at the moment of one of its loads is what the load reads: in each order of the memory operations that meets the load
/// value axiom (manual, section 14.1), and so in each execution that RVWMO allows. A law of the definitions, which is the contract of a
/// function that does nothing.
pub fn loads_read_what_is_seen()
    ensures { LoadsReadWhatIsSeen }
{}
