//! A log in brief: accesses in brief, in groups.

ghost use Rattle.std.specs.Prelude.{◌≡◌, ◌<◌, ◌≤◌, length, IfOk, IfSome};

use crate::brief_access::distance;
use crate::brief_group::BriefGroup;
use crate::brief_slice::BriefSlice;
use pages::OutOfMemory;
use round_schedule::Access;
use std::alloc::Global;
use std::marker::Model;

/// Plain loads and stores and fences in program order, in brief.
#[derive(Drop)]
pub(crate) struct BriefLog {
    count: usize,
    groups: Vec<BriefGroup>,
}

impl Model for BriefLog {
    ghost use Rattle.std.specs.Prelude.{◌≡◌, List, length};
    ghost use Rattle.trace.specs.Briefs.{in_turn};
    ghost use Rattle.round_schedule.specs.declared.access.Access.{Access as AccessOf};

    ghost Value = { List AccessOf };

    ghost view = { λ s. in_turn s.groups.items };

    ghost invariant = { λ s. s.count ≡ length (in_turn s.groups.items) };
}

impl BriefLog {
    /// These accesses, if each has a form in brief.
    pub(crate) fn of(alloc: Global, accesses: &[Access]) -> Result<Option<BriefLog>, OutOfMemory>
        ensures { IfOk result (λ r. IfSome r (λ s. s ≡ accesses.now)) }
    {
        let mut groups = Vec::new(alloc);
        let mut left = accesses;
        while let Some(first) = left.first() {
            let base = first.place();
            let (near, far) = left.split_at(near_count(left, base));
            let Some(group) = BriefGroup::of(alloc, near, base)? else {
                return Ok(None);
            };
            groups.push(group)?;
            left = far;
        }
        Ok(Some(BriefLog {
            count: accesses.len(),
            groups,
        }))
    }

    /// How many accesses there are.
    pub(crate) fn len(&self) -> usize
        ensures { result ≡ length self.now }
    {
        self.count
    }

    /// The accesses.
    pub(crate) fn lent(&self) -> BriefSlice<'_>
        ensures { result ≡ self.now }
    {
        BriefSlice::new(&self.groups)
    }
}

/// How many accesses from the first on have places near a base. Where places do not rise, it is some number from 1 on.
fn near_count(accesses: &[Access], base: u64) -> usize
    requires { 0 < length accesses.now }
    ensures some { 0 < result }
    ensures within { result ≤ length accesses.now }
{
    accesses
        .partition_point(|access| distance(base, access.place()).is_some())
        .max(1)
}
