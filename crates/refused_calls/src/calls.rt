//! What a call came to, and why it was refused.

use elf_loader::LoadError;
use host_io::RunError;
use pages::OutOfMemory;
use recording::ReadError;
use round_planner::PlanError;

/// Why a call was refused.
pub(crate) trait Refusal {
    /// Whether it was refused memory.
    fn is_of_memory(&self) -> bool;
}

impl Refusal for OutOfMemory {
    fn is_of_memory(&self) -> bool {
        true
    }
}

impl Refusal for RunError {
    fn is_of_memory(&self) -> bool {
        *self == RunError::OutOfMemory
    }
}

impl Refusal for LoadError {
    fn is_of_memory(&self) -> bool {
        *self == LoadError::OutOfMemory
    }
}

impl Refusal for PlanError {
    fn is_of_memory(&self) -> bool {
        *self == PlanError::OutOfMemory
    }
}

impl Refusal for ReadError {
    fn is_of_memory(&self) -> bool {
        *self == ReadError::OutOfMemory
    }
}

/// What one call came to.
#[derive(Clone, Copy)]
pub(crate) enum Outcome {
    /// Its whole outcome.
    Whole,
    /// Another outcome.
    Wrong,
    /// It was refused memory, and all stands as it has to.
    Refused,
    /// What it needs was refused memory before it.
    RefusedBefore,
    /// There was another refusal than of memory.
    Other,
}

impl Outcome {
    /// Of a call that wasn't refused.
    pub(crate) fn of(is_whole: bool) -> Outcome {
        if is_whole {
            Outcome::Whole
        } else {
            Outcome::Wrong
        }
    }

    /// Of a call that was refused so.
    pub(crate) fn refused<E: Refusal>(error: &E) -> Outcome {
        if error.is_of_memory() {
            Outcome::Refused
        } else {
            Outcome::Other
        }
    }

    /// Of a call before which this was refused.
    pub(crate) fn before<E: Refusal>(error: &E) -> Outcome {
        if error.is_of_memory() {
            Outcome::RefusedBefore
        } else {
            Outcome::Other
        }
    }
}
