/// Why a hart has no next step.
#[derive(Clone, Copy, PartialEq, Eq)]
pub enum StepFault {
    /// There is no hart of this number.
    NoSuchHart,
    /// The round is before that of an earlier step.
    RoundFalls,
    /// The hart has stopped.
    HasStopped,
    /// The instruction reads another number than the step's.
    OtherNumber {
        /// The number that it reads.
        read: u64,
    },
}
