use hart_step::Stop;

/// How an execution fails.
#[derive(Drop)]
pub enum Failure {
    /// A hart stops otherwise than by exiting with 0. The execution is shown up to there.
    Stopped { hart: u32, stop: Stop },
    /// Each hart exits with 0, but other bytes are put out, or stand in the ranges that are looked at, than in every ordinary run.
    Otherwise { seen: Vec<u8>, output: Vec<u8> },
    /// It goes on where ordinary runs have ended. That it goes on for ever is not known.
    Stuck,
}
