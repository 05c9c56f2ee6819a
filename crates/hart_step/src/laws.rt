//! Laws of the effects of instructions, for proofs.
ghost use Rattle.hart_step.specs.Laws.{IsSound, CountsDone, HasForms};
ghost use Rattle.hart_step.specs.Stops.{StopsFit};
ghost use Rattle.hart_step.specs.Waiting.{WaitsExactly, WaitsUnchanged};

/// In the parallel phase a hart waits exactly before a serial word, and then nothing changes.
pub fn waits_before_serial_words()
    ensures exactly { WaitsExactly }
    ensures unchanged { WaitsUnchanged }
{}

/// Each access says what its instruction read and wrote, what has to be serial is done in the serial phase, and
/// a store-conditional succeeds with the reservation of its bytes alone.
pub fn instructions_are_sound()
    ensures { IsSound }
{}

/// `done` counts the instructions of a hart, and an access's place is the count before it.
pub fn done_counts_instructions()
    ensures { CountsDone }
{}

/// Each access has the form of its kind: its address is a multiple of its width and lies in memory, its numbers
/// fit the width, and an LR, an SC and an AMO have a word or a doubleword.
pub fn accesses_have_their_forms()
    ensures { HasForms }
{}

/// An instruction that stops its hart gives a code of 1 to 10, and a value with the exit call alone; any other
/// instruction leaves why the hart stopped as it was.
pub fn stops_have_their_codes()
    ensures { StopsFit }
{}
