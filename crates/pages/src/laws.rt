ghost use Rattle.pages.specs.Laws.{CodeStays, LastStoreWins};

/// Each byte is that of the last store that covers it, else what it was.
pub fn last_store_wins()
    ensures { LastStoreWins }
{}

/// Stores that touch no code change no fetched word.
pub fn code_stays()
    ensures { CodeStays }
{}
