ghost use Rattle.std.specs.Prelude.{◌≡◌};
ghost use Rattle.program_files.specs.Status.{status_number};

/// What the program ends with.
#[derive(Clone, Copy)]
pub enum ExitStatus {
    /// What was asked for is done.
    Done,
    /// It was refused, and standard error says why.
    Refused,
    /// The command line is bad.
    BadLine,
    /// A replayed run is another than the recorded one, or RVWMO doesn't allow an execution.
    Differs,
    /// A hart did not end well, or a guest has several endings.
    Doubtful,
    /// A fence is missing.
    Lacking,
    /// No ending that was found is bad, but there may be others.
    Incomplete,
}

impl ExitStatus {
    /// The number that the host gets.
    pub fn number(self) -> u8
        ensures { result ≡ status_number self }
    {
        match self {
            ExitStatus::Done => 0,
            ExitStatus::Refused => 1,
            ExitStatus::BadLine => 2,
            ExitStatus::Differs => 3,
            ExitStatus::Doubtful => 4,
            ExitStatus::Lacking => 5,
            ExitStatus::Incomplete => 6,
        }
    }
}
