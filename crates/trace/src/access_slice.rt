//! A slice of a log: accesses in program order, lent.

ghost use Rattle.std.specs.Prelude.{◌≡◌, ◌<◌, ◌≤◌, ◌∷◌, ◌↔◌, [], drop, length, slice_index_or, IfNone, IfSome, IsTrue};
ghost use Rattle.trace.specs.LentLogs.{accesses_lent};

use crate::brief_slice::BriefSlice;
use round_schedule::Access;

/// Accesses in program order.
#[derive(Drop)]
pub(crate) enum AccessSlice<'a> {
    /// As they are.
    Whole(&'a [Access]),
    /// In brief.
    Brief(BriefSlice<'a>),
}

impl<'a> AccessSlice<'a> {
    /// The access at an index.
    pub(crate) fn get(&self, index: usize) -> Access
        requires { index < length (accesses_lent self.now) }
        ensures { result ≡ slice_index_or (accesses_lent self.now) index result }
    {
        match self {
            AccessSlice::Whole(accesses) => access_at(accesses, index),
            AccessSlice::Brief(briefs) => briefs.get(index),
        }
    }

    /// Those from an index on.
    pub(crate) fn from(self, index: usize) -> AccessSlice<'a>
        requires { index ≤ length (accesses_lent self) }
        ensures { accesses_lent result ≡ drop index (accesses_lent self.entry) }
    {
        match self {
            AccessSlice::Whole(accesses) => AccessSlice::Whole(&accesses[index..]),
            AccessSlice::Brief(briefs) => AccessSlice::Brief(briefs.from(index)),
        }
    }

    /// Whether there are none.
    #[inline]
    pub(crate) fn is_empty(&self) -> bool
        ensures { IsTrue result ↔ (length (accesses_lent self.now) ≡ 0) }
    {
        match self {
            AccessSlice::Whole(accesses) => accesses.is_empty(),
            AccessSlice::Brief(briefs) => briefs.is_empty(),
        }
    }

    /// Takes the first access out.
    #[inline(always)]
    pub(crate) fn take_first(&mut self) -> Option<Access>
        ensures none { IfNone result ((accesses_lent self.old ≡ []) ×
            (accesses_lent self.new ≡ [])) }
        ensures some { IfSome result (λ a. accesses_lent self.old ≡ a ∷ accesses_lent self.new) }
    {
        match self {
            AccessSlice::Whole(accesses) => {
                let (access, rest) = accesses.split_first()?;
                *accesses = rest;
                Some(*access)
            }
            AccessSlice::Brief(briefs) => briefs.take_first(),
        }
    }
}

/// The access at an index of a slice.
fn access_at(accesses: &[Access], index: usize) -> Access
    requires { index < length accesses.now }
    ensures { result ≡ slice_index_or accesses.now index result }
{
    accesses[index]
}
