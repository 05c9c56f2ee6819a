ghost use Rattle.rv64_decode.specs.Table.{NoWordMeetsTwoRows};

/// A law of the instruction table, for proofs: no word is an instruction of two rows.
pub fn no_word_meets_two_rows()
    ensures { NoWordMeetsTwoRows }
{}
