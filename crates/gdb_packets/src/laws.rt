//! Laws of the definitions, each the contract of a function that does nothing.

ghost use Rattle.gdb_packets.specs.Stream.{ToldInAnyPieces};
ghost use Rattle.gdb_packets.specs.Writing.{WrittenIsRead};

/// What is told doesn't depend on the bytes that come after it: so it is the same in whatever pieces a stream comes.
pub fn told_in_any_pieces()
    ensures { ToldInAnyPieces }
{}

/// What is written of a payload is told as that payload.
pub fn written_is_read()
    ensures { WrittenIsRead }
{}
